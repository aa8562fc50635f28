// One function for each theorem on orders and plans: its contract is the statement.
ghost use Rattle.order.specs.Claims.{CopiesBounded, AcceptedExactly, OrderGrows, OneAbove, PlanCarries, StandingKept};
ghost use Rattle.order.specs.Examples.{OrderExamples};

// A copy of a book's shape keeps to a book's ranges.
pub fn copies_bounded_holds()
    ensures { CopiesBounded }
{}

// When joins are accepted as an order.
pub fn accepted_exactly_holds()
    ensures { AcceptedExactly }
{}

// An accepted order is a tree with each table once.
pub fn order_grows_holds()
    ensures { OrderGrows }
{}

// Each node but the last has exactly one join above it.
pub fn one_above_holds()
    ensures { OneAbove }
{}

// A plan has what the trees of its joins have.
pub fn plan_carries_holds()
    ensures { PlanCarries }
{}

// That an order stands can be taken out of an invariant.
pub fn standing_kept_holds()
    ensures { StandingKept }
{}

// The definitions at small shapes.
pub fn order_examples_hold()
    ensures { OrderExamples }
{}
