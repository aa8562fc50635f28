// What every layer hands back in place of a result: which of the sixteen numbered conditions stopped the call,
// at which layer and at which place.

mod reads;

#[derive(Clone, Copy, Debug, PartialEq, Eq)]
pub struct Refusal {
    pub layer: Layer,
}

#[derive(Clone, Copy, Debug, PartialEq, Eq)]
pub enum Layer {
    Line { place: usize, cause: LineCause },
    Record { place: usize, cause: RecordCause },
    Book { place: usize, cause: BookCause },
    Order { place: usize, cause: OrderCause },
    Question { place: usize, cause: QuestionCause },
}

// Why bytes are no lines.
#[derive(Clone, Copy, Debug, PartialEq, Eq)]
pub enum LineCause {
    // The text has more than 65,535 bytes.
    TooLong = 1,
    // A line has none of the eight forms, or lacks its end byte.
    NoForm = 2,
}

// Why lines are no case.
#[derive(Clone, Copy, Debug, PartialEq, Eq)]
pub enum RecordCause {
    // A line's kind, or the end of the text, may not follow the kind before it.
    Misplaced = 3,
    // A list, the tables or the joins are too many.
    TooMany = 4,
    // A name stands twice in a list, or a mentioned name is not listed.
    WrongName = 5,
    // Scope locks, rows or bars do not rise, or a row has not a holder for each lock.
    NotRising = 6,
    // The row list is full, or holds another row.
    NoRoom = 7,
}

// Why two books are no book.
#[derive(Clone, Copy, Debug, PartialEq, Eq)]
pub enum BookCause {
    // The two books do not go together.
    Apart = 8,
}

// Why joins are no order.
#[derive(Clone, Copy, Debug, PartialEq, Eq)]
pub enum OrderCause {
    // A lock is in no table.
    BareLock = 9,
    // The joins are not one fewer than the tables, or one names an unfit node.
    Unfit = 10,
    // A joint scope has over six locks.
    TooWide = 11,
}

// Why a question has no answer.
#[derive(Clone, Copy, Debug, PartialEq, Eq)]
pub enum QuestionCause {
    // No order has been set.
    NoOrder = 12,
    // A lock, holder or table is not in the book, or a name list has another length than the book.
    NotInBook = 13,
    // Fewer cells are handed in than needed.
    FewCells = 14,
    // The output is too short.
    ShortOutput = 15,
    // The total is none, and an assignment was wanted.
    NoAssignment = 16,
}
