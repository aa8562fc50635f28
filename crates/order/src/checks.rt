// The check of an order: the first refusal that stops it, or else its plan.
ghost use Rattle.std.specs.Prelude.{◌≡◌, ◌^◌, ◌<◌, ◌≤◌, length, Some, None, MatchResult};
ghost use Rattle.book.specs.Scopes.{named};
ghost use Rattle.order.specs.BookShapes.{shape_in};
ghost use Rattle.order.specs.Firsts.{first};
ghost use Rattle.order.specs.Plans.{Planned};
ghost use Rattle.order.specs.Refusals.{refused_at, bare, order_refusal};

use crate::marks::Marks;
use crate::nodes::outside;
use crate::part::Part;
use crate::plan::Plan;
use crate::progress::Progress;
use crate::side::Side;
use aggregation::Join;
use book::{BookShape, Layer, OrderCause, Refusal, Scope};

// The refusal of an order at a place.
pub(crate) fn refuse(place: usize, cause: OrderCause) -> Refusal
    ensures { result ≡ refused_at place cause }
{
    Refusal {
        layer: Layer::Order { place, cause },
    }
}

// Refuses a shape with a lock that is in no table, at the lowest such lock.
fn no_bare_lock(shape: &BookShape) -> Result<(), Refusal>
    ensures { MatchResult result (λ _. first (bare (shape_in shape.now)) (shape_in shape.now).locks ≡ None) (λ e. first (bare (shape_in shape.now)) (shape_in shape.now).locks ≡ Some e) }
{
    let covered = outside(shape, &Marks::none());
    match (0..shape.locks()).find(|lock| !covered.holds(*lock)) {
        Some(lock) => Err(refuse(lock, OrderCause::BareLock)),
        None => Ok(()),
    }
}

// How many rows there are over a scope.
fn rows_over(holders: usize, scope: &Scope) -> usize
    requires { (0 < holders) × (holders ≤ 16) }
    ensures value { result ≡ holders ^ length (named scope.now) }
    ensures bound { result ≤ 16777216 }
{
    holders.pow(scope.len() as u32)
}

// Whether the joins are an order for the shape, and if so its plan.
pub fn check(shape: &BookShape, joins: &[Join]) -> Result<Plan, Refusal>
    ensures { MatchResult result (λ p. Planned (shape_in shape.now) joins.now p) (λ e. order_refusal (shape_in shape.now) joins.now ≡ Some e) }
{
    no_bare_lock(shape)?;
    let tables = shape.tables();
    if joins.len() >= 64 || joins.len() + 1 != tables {
        return Err(refuse(joins.len(), OrderCause::Unfit));
    }
    let mut progress = Progress::start(shape, joins);
    let mut parts = [Part::none(); 64];
    let mut cells = 0;
    // By index: nothing is known of the parts after `iter_mut().zip` (tried in `Marks::or`), and `enumerate` would index joins.
    for (i, join) in joins.iter().enumerate() {
        let kept = progress.take()?;
        parts[i] = Part {
            left: Side::of(tables, join.left),
            right: Side::of(tables, join.right),
            kept,
            at: cells,
        };
        cells += rows_over(shape.holders(), &kept);
    }
    Ok(Plan {
        len: joins.len(),
        parts,
        cells,
    })
}
