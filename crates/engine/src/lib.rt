// The engine: cases of a book, orders, bars, and the questions asked of them, over cells that the caller lends.
//
// Phases, lowest first: `holders`, `step`, `steps`, `source`, `factor`, `sums` and `walk` are one aggregation, the
// projection of the join of two factors; `projects` writes it into cells; `framed` is a book with its shape, `carried` one
// with the plan of its order, and `fills` and `spreads` are the two phases on it; `margins` is what sheets are read off;
// `totals`, `sheets`, `locks` and `assigns` read the answers; `refusals` has the tests before them, and `lent` the memory
// of a run. A caller meets `question`, `call`, `case`, `runs` and `theorems`.
#![tactic(auto)]

mod assigns;
mod call;
mod carried;
mod case;
mod factor;
mod fills;
mod framed;
mod holders;
mod lent;
mod locks;
mod margins;
mod projects;
mod question;
mod refusals;
mod runs;
mod sheets;
mod source;
mod spreads;
mod step;
mod steps;
mod sums;
mod theorems;
mod totals;
mod walk;

pub use call::Call;
pub use case::Case;
pub use question::{Answer, Question};
pub use runs::ask_after;
pub use theorems::cells_are_projections;
