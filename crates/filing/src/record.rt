use weighing::Charge;

// A permitted row as it lies in a caller's row list: which row of which table, and what it is charged.
#[derive(Clone, Copy, PartialEq, Eq)]
pub struct RowRecord {
    pub table: usize,
    pub row: usize,
    pub charge: Charge,
}
