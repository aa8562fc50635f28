// What the check knows of each node.
ghost use Rattle.std.specs.Prelude.{◌≡◌, List};
ghost use Rattle.aggregation.specs.Sets.{un};
ghost use Rattle.aggregation.specs.Nets.{has};
ghost use Rattle.order.specs.BookShapes.{shape_in};
ghost use Rattle.order.specs.Marked.{marked};
ghost use Rattle.order.specs.Known.{Known};

use crate::marks::Marks;
use aggregation::Join;
use book::BookShape;

// The tables beneath a node, and the locks that it keeps.
#[derive(Clone, Copy)]
pub(crate) struct Node {
    pub(crate) under: Marks,
    pub(crate) keeps: Marks,
}

// The locks that occur in a table that is not marked.
pub(crate) fn outside(shape: &BookShape, under: &Marks) -> Marks
    ensures { marked result ≡ has (shape_in shape.now) (un (marked under.now)) }
{
    let mut locks = Marks::none();
    for t in 0..shape.tables() {
        if !under.holds(t) {
            locks = Marks::of(&shape.scope(t)).or(&locks);
        }
    }
    locks
}

// What is known before any join: each table is a node.
pub(crate) fn tables_alone(shape: &BookShape) -> [Node; 128]
    ensures { (js : List Join) → Known (shape_in shape.now) js 0 result }
{
    let none = Node {
        under: Marks::none(),
        keeps: Marks::none(),
    };
    let mut nodes = [none; 128];
    for (t, node) in nodes[..shape.tables()].iter_mut().enumerate() {
        *node = Node {
            under: Marks::one(t),
            keeps: Marks::of(&shape.scope(t)),
        };
    }
    nodes
}
