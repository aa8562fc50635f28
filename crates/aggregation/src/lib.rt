// The theory of joins along a tree, for weights under any commutative semiring. Its definitions and statements stand
// in specs/; each function here carries a theorem on its contract and computes nothing.
#![tactic(auto)]

mod examples;
mod join;
mod listings;
mod relations;
mod trees;

pub use examples::{
    early_drop_is_wrong, hypotheses_are_met, own_weight_twice_is_wrong, support_is_not_enough,
};
pub use join::Join;
pub use listings::{
    best_holds, fixing_holds, listing_holds, marginals_hold, permitted_holds, total_holds,
};
pub use relations::{relations_hold, rows_hold, sets_hold};
pub use trees::{inside_holds, order_grows, outside_holds, values_hold};
