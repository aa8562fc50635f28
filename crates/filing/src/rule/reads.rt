ghost use Rattle.std.specs.Prelude.{◌≡◌, ℕ, ◌<◌, length};
ghost use Rattle.book.specs.Scopes.{named};
ghost use Rattle.book.specs.Shapes.{Fit};
ghost use Rattle.book.specs.BookShapes.{shape_ranged};
ghost use Rattle.filing.specs.Shapes.{Grown};
ghost use Rattle.filing.specs.Rules.{permits, ruled, rule_at, by_rules};

use super::{Rule, RuleBook, RuleForm};
use book::{Book, BookShape, Scope};
use weighing::Charge;

// Whether a form permits two holders.
fn permitted(form: RuleForm, first: usize, second: usize) -> bool
    ensures { result ≡ permits form first second }
{
    match form {
        RuleForm::Differ => first != second,
        RuleForm::Same => first == second,
    }
}

// What a rule charges a row: its two digits are the two holders, the first leading.
fn charged(rule: Rule, holders: usize, row: usize) -> Option<Charge>
    requires { 0 < holders }
    ensures { result ≡ ruled rule holders row }
{
    permitted(rule.form, row / holders, row % holders).then_some(rule.charge)
}

impl RuleBook {
    // No rules yet, in a book that begins as this shape.
    pub(crate) fn new(shape: BookShape) -> RuleBook
        requires { shape.tables ≡ 0 }
        ensures { result.shape ≡ shape }
    {
        let rule = Rule {
            form: RuleForm::Differ,
            charge: Charge::ZERO,
        };
        RuleBook {
            shape,
            rules: [rule; 64],
        }
    }

    // One more rule, on two locks.
    pub(crate) fn add_rule(&mut self, scope: Scope, rule: Rule)
        requires room { (by_rules self.old).tables < 64 }
        requires fit { Fit (by_rules self.old).locks (named scope) }
        requires pair { length (named scope) ≡ 2 }
        ensures { Grown (by_rules self.old) (by_rules self.new) (named scope) (ruled rule (by_rules self.old).holders) }
    {
        self.rules[self.shape.tables()] = rule;
        // True, since what is required is what the shape tests.
        let _ = self.shape.add(scope);
    }
}

// The written book hands the same four questions to its shape: a trait with one method and two impls would be longer.
impl Book for RuleBook {
    ghost meaning = { by_rules };

    ghost ranged = { λ b. shape_ranged b.shape (λ t row. rule_at b.rules t b.shape.holders row) };

    fn locks(&self) -> usize {
        self.shape.locks()
    }

    fn holders(&self) -> usize {
        self.shape.holders()
    }

    fn tables(&self) -> usize {
        self.shape.tables()
    }

    fn scope(&self, table: usize) -> Scope {
        self.shape.scope(table)
    }

    fn charge(&self, table: usize, row: usize) -> Option<Charge> {
        if !self.shape.has_row(table, row) {
            return None;
        }
        charged(self.rules[table], self.shape.holders(), row)
    }
}
