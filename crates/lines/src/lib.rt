// From bytes to lines: each line of a filed text is one of eight forms, and every value of a form has one spelling.
#![tactic(auto)]

mod cut;
mod key;
mod kind;
mod law;
mod line;
mod name;
mod names;
mod number;
mod read;

pub use cut::next_line;
pub use kind::Kind;
pub use law::{spelling_is_one_to_one, text_has_one_reading};
pub use line::Line;
pub use name::is_name;
pub use names::{Names, NamesIter};
pub use number::read_number;
pub use read::{read_line, take_line};
