// The contents of a case, gathered from a text entry by entry.
ghost use Rattle.std.specs.Prelude.{◌≡◌, []};
ghost use Rattle.filing.specs.Drafts.{Holds, RoomFor, Extends};

use crate::joins::Joins;
use crate::reader::Entry;
use crate::record::RowRecord;
use crate::rule::RuleBook;
use crate::written::WrittenBook;
use aggregation::Join;
use book::{Barred, BookShape};

#[derive(Drop)]
pub(crate) struct Draft<'a> {
    pub(crate) written: WrittenBook<'a>,
    pub(crate) rules: RuleBook,
    pub(crate) joins: Joins,
    pub(crate) bars: Barred<()>,
}

impl<'a> Draft<'a> {
    // Nothing yet, in a case whose books begin as this shape.
    pub(crate) fn new(shape: BookShape, rows: &'a [RowRecord]) -> Draft<'a>
        requires { shape.tables ≡ 0 }
        ensures { Holds shape.locks shape.holders rows.now [] [] [] [] result }
    {
        Draft {
            written: WrittenBook::new(shape, rows),
            rules: RuleBook::new(shape),
            joins: Joins::new(),
            bars: Barred::new(()),
        }
    }

    // Adds what a line says.
    pub(crate) fn add(&mut self, entry: Entry)
        requires { RoomFor self.old entry }
        ensures { Extends self.old self.new entry }
    {
        match entry {
            Entry::Table(scope) => self.written.add_table(scope),
            Entry::Rule(scope, rule) => self.rules.add_rule(scope, rule),
            Entry::Join(left, right) => self.joins.push(Join { left, right }),
            Entry::Bar(lock, holder) => {
                self.bars.set(lock, holder, true);
            }
            Entry::Names | Entry::Row(_) => {}
        }
    }
}
