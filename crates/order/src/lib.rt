// Orders: which lists of joins a book's tables can be joined by, and the plan that an accepted order is carried out by.
#![tactic(auto)]

mod checks;
mod marks;
mod nodes;
mod part;
mod plan;
mod progress;
mod side;
mod theorems;

pub use book::BookShape;
pub use checks::check;
pub use part::Part;
pub use plan::Plan;
pub use side::{Above, Side};
pub use theorems::{
    accepted_exactly_holds, copies_bounded_holds, one_above_holds, order_examples_hold,
    order_grows_holds, plan_carries_holds, standing_kept_holds,
};
