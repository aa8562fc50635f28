// Runs: a case is made of a book, calls are made on it, and a question is asked.
ghost use Rattle.std.specs.Prelude.{◌≡◌};
ghost use Rattle.engine.specs.Memory.{lent, memory_in, SameMemory, Leaves};
ghost use Rattle.engine.specs.Laws.{Law, RanAsked};
ghost use Rattle.engine.specs.Standing.{order_left, bars_left};
ghost use Rattle.engine.specs.Views.{book_in, shape_now, bars_now, order_now, book_meaning, meaning_now};

use crate::lent::Lent;
use crate::{Answer, Call, Case, Question};
use book::{Book, Refusal};
use weighing::Weighing;

// Asks one question.
fn ask<B: Book + Drop, W: Weighing>(
    case: &Case<B>,
    question: Question,
    lent: &mut Lent<'_, W::Plain>,
) -> Result<Answer<W>, Refusal>
    ensures memory { SameMemory lent.new lent.old }
    ensures leaves { Leaves W.Weighing.algebra (meaning_now case.now) (order_now case.now) (Call.Ask question) (memory_in lent.old) (memory_in lent.new) }
    ensures law { Law W.Weighing.algebra (book_meaning case.now) (order_now case.now) (bars_now case.now) question (memory_in lent.old) (memory_in lent.new) result }
{
    match question {
        Question::Total => case.total::<W>(lent.cells).map(Answer::Weight),
        Question::TableSheet(table) => case
            .table_sheet::<W>(table, lent.cells, lent.sheet)
            .map(|()| Answer::Written),
        Question::LockSheet(lock) => case
            .lock_sheet::<W>(lock, lent.cells, lent.sheet)
            .map(|()| Answer::Written),
        Question::Assignment => case
            .assignment::<W>(lent.cells, lent.holders)
            .map(|()| Answer::Written),
    }
}

// Makes one call; what it answers is let go.
fn perform<B: Book + Drop, W: Weighing>(
    case: &mut Case<B>,
    call: Call<'_>,
    lent: &mut Lent<'_, W::Plain>,
)
    ensures memory { SameMemory lent.new lent.old }
    ensures order { order_now case.new ≡ order_left (shape_now case.old) (order_now case.old) call.entry }
    ensures bars { bars_now case.new ≡ bars_left (shape_now case.old) (bars_now case.old) call.entry }
    ensures same { book_in case.new ≡ book_in case.old }
    ensures leaves { Leaves W.Weighing.algebra (meaning_now case.old) (order_now case.old) call.entry (memory_in lent.old) (memory_in lent.new) }
{
    match call {
        Call::Order(joins) => {
            let _ = case.order(joins);
        }
        Call::Bar(lock, holder) => {
            let _ = case.bar(lock, holder);
        }
        Call::Lift(lock, holder) => {
            let _ = case.lift(lock, holder);
        }
        Call::Ask(question) => {
            let _ = ask::<B, W>(case, question, lent);
        }
    }
}

// Makes a case of a book, makes the calls on it, some of which may be refused, and asks a question. Its contract is the
// law on runs: totals and sheet numbers are eithers over exactly the permitted assignments, and an assignment is handed
// out exactly when there is a permitted one, and is a best one.
pub fn ask_after<B: Book + Drop, W: Weighing>(
    book: B,
    calls: &[Call<'_>],
    question: Question,
    cells: &mut [W::Plain],
    sheet: &mut [W::Plain],
    holders: &mut [usize],
) -> Result<Answer<W>, Refusal>
    ensures { RanAsked W.Weighing.algebra (B.Book.meaning book) calls.now question (lent cells.old sheet.old holders.old) (lent cells.new sheet.new holders.new) result }
{
    let mut case = Case::new(book);
    let mut lent = Lent {
        cells,
        sheet,
        holders,
    };
    for call in calls {
        perform::<B, W>(&mut case, *call, &mut lent);
    }
    ask::<B, W>(&case, question, &mut lent)
}
