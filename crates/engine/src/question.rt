// What can be asked of a case, and what it answers.

#[derive(Clone, Copy, Debug, PartialEq, Eq)]
pub enum Question {
    Total,
    TableSheet(usize),
    LockSheet(usize),
    Assignment,
}

// The total's weight; a sheet or an assignment stands in the memory that was lent.
// It is no `Option`, which is no plainer: `Written` is itself an answer, and not the absence of a weight.
#[derive(Clone, Copy, Debug, PartialEq, Eq)]
pub enum Answer<W> {
    Written,
    Weight(W),
}
