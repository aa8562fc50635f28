// Filing: the row records that a caller lends, the two books that reading a text fills, and the reader.
#![tactic(auto)]

mod check;
mod draft;
mod fill;
mod follow;
mod indexed;
mod joins;
mod laws;
mod names;
mod reader;
mod record;
mod resolve;
mod rule;
mod scan;
mod second;
#[cfg(test)]
mod tests;
mod verdict;
mod written;

pub use check::check_rows;
pub use fill::fill_rows;
pub use indexed::IndexedBook;
pub use joins::Joins;
pub use laws::{rows_listed, rows_ruled};
pub use names::NameList;
pub use record::RowRecord;
pub use rule::RuleBook;
pub use second::{Filing, read_filing};
pub use verdict::{second_call_follows_first, text_has_one_verdict};
pub use written::WrittenBook;
