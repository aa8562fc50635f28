// The joins of a text, in its order: at most 63.
ghost use Rattle.std.specs.Prelude.{◌≡◌, ◌≤◌, length};

use aggregation::Join;

// An array with its length beside it: a caller copies a filing's joins, and an ArrayVec is not Copy.
#[derive(Clone, Copy)]
pub struct Joins {
    len: usize,
    at: [Join; 63],
    ghost few: { len ≤ 63 },
    ghost size: { length at ≡ 63 },
}

mod reads;
