// The eight kinds of lines, by the key that each begins with.
#[derive(Clone, Copy, Debug, PartialEq, Eq)]
pub enum Kind {
    Locks,
    Holders,
    Table,
    Row,
    Differ,
    Same,
    Join,
    Bar,
}
