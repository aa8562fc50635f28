// The book over a written one that callers name; it has no index yet, and means what the written book means.
use crate::written::WrittenBook;

#[derive(Clone, Copy)]
pub struct IndexedBook<'a> {
    book: WrittenBook<'a>,
}

mod reads;
