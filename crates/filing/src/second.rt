// The second call: what a text means, by the rows that the first call put into a row list.
ghost use Rattle.std.specs.Prelude.{◌≡◌, List, length, max};
ghost use Rattle.book.specs.BookShapes.{Empty};
ghost use Rattle.lines.specs.Told.{Told};
ghost use Rattle.filing.specs.Readers.{AnyRow};
ghost use Rattle.filing.specs.Reading.{Accepted};
ghost use Rattle.filing.specs.Resolving.{names_of};
ghost use Rattle.filing.specs.Standing.{all_rows, at_start};
ghost use Rattle.filing.specs.Meanings.{Finished, Means, SecondCall};

use crate::check::check_rows;
use crate::draft::Draft;
use crate::joins::Joins;
use crate::names::NameList;
use crate::reader::Entry;
use crate::record::RowRecord;
use crate::resolve::count_in;
use crate::rule::RuleBook;
use crate::scan::Scan;
use crate::written::WrittenBook;
use book::{BookShape, Refusal};

// What a text says: its two books, its name lists, its joins and its bars.
#[derive(Drop)]
pub struct Filing<'a> {
    pub written: WrittenBook<'a>,
    pub rules: RuleBook,
    pub locks: NameList<'a>,
    pub holders: NameList<'a>,
    pub joins: Joins,
    pub bars: [[bool; 16]; 64],
}

// No tables yet, in a book of the locks and holders that are read so far; a list still to come counts as one name.
fn no_tables(scan: &Scan) -> BookShape
    ensures { Empty (max (length (names_of scan.now.reader.locks)) 1) (max (length (names_of scan.now.reader.holders)) 1) result }
{
    let locks = count_in(scan.locks()).max(1);
    let holders = count_in(scan.holders()).max(1);
    BookShape::new(locks, holders).unwrap()
}

// Gathers what the lines of an accepted text say; `rows` are its rows.
fn gather<'a>(text: &'a [u8], rows: &'a [RowRecord]) -> Filing<'a>
    requires { (ts : List Told) × Accepted AnyRow text.now ts × (rows.now ≡ all_rows at_start ts) }
    ensures { (ts : List Told) → Accepted AnyRow text.now ts → rows.now ≡ all_rows at_start ts → Means ts result }
{
    let mut scan = Scan::new(text);
    let mut draft = Draft::new(no_tables(&scan), rows);
    while let Some(entry) = scan.step() {
        if let Entry::Names = entry {
            draft = Draft::new(no_tables(&scan), rows);
        } else {
            draft.add(entry);
        }
    }
    finish(
        draft,
        NameList::new(scan.locks()),
        NameList::new(scan.holders()),
    )
}

// A draft with its name lists.
fn finish<'a>(draft: Draft<'a>, locks: NameList<'a>, holders: NameList<'a>) -> Filing<'a>
    ensures { Finished draft.entry locks.entry holders.entry result }
{
    let Draft {
        written,
        rules,
        joins,
        bars,
    } = draft;
    let bars = bars.bars;
    Filing {
        written,
        rules,
        locks,
        holders,
        joins,
        bars,
    }
}

// Reads the text and the row list, and gives what the text means or the refusal that stops it.
pub fn read_filing<'a>(text: &'a [u8], rows: &'a [RowRecord]) -> Result<Filing<'a>, Refusal>
    ensures { SecondCall text.now rows.now result }
{
    let n = check_rows(text, rows)?;
    Ok(gather(text, &rows[..n]))
}
