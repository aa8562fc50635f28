// The rule book: no rows are stored; each table is a rule on two locks that says which rows are permitted.
ghost use Rattle.std.specs.Prelude.{◌≡◌, ℕ, ◌<◌, length};
ghost use Rattle.book.specs.Shapes.{scope_at};

use book::BookShape;
use weighing::Charge;

// Which pairs of holders a rule permits.
#[derive(Clone, Copy)]
pub(crate) enum RuleForm {
    // Two different holders.
    Differ,
    // One holder twice.
    Same,
}

// A rule's form and what each of its rows is charged.
#[derive(Clone, Copy)]
pub(crate) struct Rule {
    pub(crate) form: RuleForm,
    pub(crate) charge: Charge,
}

// The rules lie beside the shape, and not with its scopes, so that the shape is the one type that every book has.
#[derive(Clone, Copy)]
pub struct RuleBook {
    shape: BookShape,
    rules: [Rule; 64],
    ghost pairs: { (t : ℕ) → t < shape.tables → length (scope_at shape.scopes t) ≡ 2 },
}

mod reads;
