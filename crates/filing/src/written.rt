// The written book: its permitted rows are those of a row list that the caller lends.
use crate::RowRecord;
use book::BookShape;

#[derive(Clone, Copy)]
pub struct WrittenBook<'a> {
    rows: &'a [RowRecord],
    shape: BookShape,
}

mod reads;
