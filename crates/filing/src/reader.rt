// The reader: what the lines so far say, and how the next line is judged by it.
ghost use Rattle.std.specs.Prelude.{◌≡◌, ◌<◌, ◌≤◌, length, MatchResult};
ghost use Rattle.lines.specs.Told.{Good, meant, held};
ghost use Rattle.lines.specs.Told.{table as told_table, row as told_row, join as told_join, bar as told_bar, locks as told_locks, holders as told_holders};
ghost use Rattle.filing.specs.Follows.{may_end};
ghost use Rattle.filing.specs.Judging.{Lists, Unlists};
ghost use Rattle.filing.specs.Standing.{at_start, charge_of};
ghost use Rattle.filing.specs.Resolving.{names_of};

use crate::follow::{may_end, may_follow};
use crate::record::RowRecord;
use crate::resolve::{count_in, find_in, has_twice, number_of, places_in};
use crate::rule::{Rule, RuleForm};
use book::{RecordCause, Scope};
use lines::{Kind, Line, Names};
use weighing::Charge;

// What a line adds to a case, by numbers.
#[derive(Clone, Copy)]
pub(crate) enum Entry {
    // A list of names.
    Names,
    // A table over these locks.
    Table(Scope),
    // A row of the last table.
    Row(RowRecord),
    // A rule on these locks.
    Rule(Scope, Rule),
    // A join of two nodes.
    Join(usize, usize),
    // A bar of a lock and a holder.
    Bar(usize, usize),
}

#[derive(Clone, Copy)]
pub(crate) struct Reader<'a> {
    // The kind of the line before; nothing at the start.
    before: Option<Kind>,
    locks: Option<Names<'a>>,
    holders: Option<Names<'a>>,
    // How many tables there are, rules counted, and how many locks the last one is about.
    tables: usize,
    width: usize,
    // How many rows there are, and the number of the last one.
    // It has sense only after a row, as `last_bar` after a bar: the kind before says so, a form the project fixes.
    rows: usize,
    last_row: usize,
    joins: usize,
    // The lock and the holder of the last bar.
    last_bar: (usize, usize),
    ghost few_locks: { length (names_of locks) ≤ 64 },
    ghost few_holders: { length (names_of holders) ≤ 16 },
}

impl<'a> Reader<'a> {
    ghost use Rattle.filing.specs.Readers.{standing_of, Judged, Entered, Scoped, Unscoped, LastRow, LastBar, rule_line};

    // Nothing is read yet.
    pub(crate) fn new() -> Reader<'a>
        ensures { standing_of result ≡ at_start }
    {
        Reader {
            before: None,
            locks: None,
            holders: None,
            tables: 0,
            width: 0,
            rows: 0,
            last_row: 0,
            joins: 0,
            last_bar: (0, 0),
        }
    }

    // The list of locks. Only the field and the limit set it apart from the other list: `list_of` does the work.
    fn take_locks(&mut self, names: Names<'a>) -> Result<Entry, RecordCause>
        ensures { Entered (standing_of self.old) (told_locks (held names.entry)) (standing_of self.new) result }
    {
        self.locks = Some(list_of(names, 64)?);
        Ok(Entry::Names)
    }

    // The list of holders.
    fn take_holders(&mut self, names: Names<'a>) -> Result<Entry, RecordCause>
        ensures { Entered (standing_of self.old) (told_holders (held names.entry)) (standing_of self.new) result }
    {
        self.holders = Some(list_of(names, 16)?);
        Ok(Entry::Names)
    }

    // A scope over these locks, for one table more.
    fn scope_of(&self, locks: Names) -> Result<Scope, RecordCause>
        requires { length (held locks) ≤ 4 }
        ensures { MatchResult result (λ scope. Scoped (standing_of self.now) (held locks.entry) scope) (λ cause. Unscoped cause (standing_of self.now) (held locks.entry)) }
    {
        if self.tables >= 64 {
            return Err(RecordCause::TooMany);
        }
        let places = places_in(self.locks, locks).ok_or(RecordCause::WrongName)?;
        Scope::of(places.as_slice()).ok_or(RecordCause::NotRising)
    }

    // A join of two nodes.
    fn take_join(&mut self, left: usize, right: usize) -> Result<Entry, RecordCause>
        ensures { Entered (standing_of self.old) (told_join left right) (standing_of self.new) result }
    {
        if self.joins >= 63 {
            return Err(RecordCause::TooMany);
        }
        self.joins += 1;
        Ok(Entry::Join(left, right))
    }

    // A table over these locks.
    fn take_table(&mut self, locks: Names) -> Result<Entry, RecordCause>
        requires { length (held locks) ≤ 4 }
        ensures { Entered (standing_of self.old) (told_table (held locks.entry)) (standing_of self.new) result }
    {
        let scope = self.scope_of(locks)?;
        self.tables += 1;
        self.width = locks.count();
        Ok(Entry::Table(scope))
    }

    // A rule of this form on these locks.
    fn take_rule(&mut self, form: RuleForm, locks: Names, charge: u32) -> Result<Entry, RecordCause>
        requires { (length (held locks) ≤ 4) × (charge ≤ 1000000) }
        ensures { Entered (standing_of self.old) (rule_line form (held locks.entry) charge) (standing_of self.new) result }
    {
        let scope = self.scope_of(locks)?;
        self.tables += 1;
        self.width = locks.count();
        Ok(Entry::Rule(
            scope,
            Rule {
                form,
                charge: charge_of(charge),
            },
        ))
    }

    // A row of the last table, above the row before it in that table, if there is one.
    fn take_row(
        &mut self,
        holders: Names,
        charge: u32,
        last: Option<usize>,
    ) -> Result<Entry, RecordCause>
        requires few { (length (held holders) ≤ 4) × ((charge ≤ 1000000) × (self.old.rows < 65536)) }
        requires last { LastRow (standing_of self.old) last }
        ensures { Entered (standing_of self.old) (told_row (held holders.entry) charge) (standing_of self.new) result }
    {
        let places = places_in(self.holders, holders).ok_or(RecordCause::WrongName)?;
        let row = number_of(&places, count_in(self.holders));
        if places.len() != self.width {
            return Err(RecordCause::NotRising);
        }
        if let Some(last) = last
            && row <= last
        {
            return Err(RecordCause::NotRising);
        }
        self.rows += 1;
        self.last_row = row;
        Ok(Entry::Row(RowRecord {
            table: self.tables.saturating_sub(1),
            row,
            charge: charge_of(charge),
        }))
    }

    // A bar, above the bar before it, if there is one: the lock counts before the holder.
    fn take_bar(
        &mut self,
        lock: &[u8],
        holder: &[u8],
        last: Option<(usize, usize)>,
    ) -> Result<Entry, RecordCause>
        requires { LastBar (standing_of self.old) last }
        ensures { Entered (standing_of self.old) (told_bar lock.now holder.now) (standing_of self.new) result }
    {
        let lock = find_in(self.locks, lock).ok_or(RecordCause::WrongName)?;
        let holder = find_in(self.holders, holder).ok_or(RecordCause::WrongName)?;
        if let Some(last) = last
            && (lock, holder) <= last
        {
            return Err(RecordCause::NotRising);
        }
        self.last_bar = (lock, holder);
        Ok(Entry::Bar(lock, holder))
    }

    // A line that may follow, judged by the lines before; all but its kind is noted. A line's enum holds plain values (a
    // form the project fixes), so what a line may hold is required here and above. That one row more can be counted is
    // required too, since only a scan, which has the text, knows it.
    fn enter(&mut self, line: Line<'a>) -> Result<Entry, RecordCause>
        requires { Good (meant line) × (self.old.rows < 65536) }
        ensures { Entered (standing_of self.old) (meant line.entry) (standing_of self.new) result }
    {
        match (self.before, line) {
            (_, Line::Locks { names, .. }) => self.take_locks(names),
            (_, Line::Holders { names, .. }) => self.take_holders(names),
            (_, Line::Table { locks, .. }) => self.take_table(locks),
            (
                Some(Kind::Row),
                Line::Row {
                    holders,
                    charge,
                    ..
                },
            ) => self.take_row(holders, charge, Some(self.last_row)),
            (
                _,
                Line::Row {
                    holders,
                    charge,
                    ..
                },
            ) => self.take_row(holders, charge, None),
            (_, Line::Differ { locks, charge, .. }) => self.take_rule(
                RuleForm::Differ,
                locks,
                charge,
            ),
            (_, Line::Same { locks, charge, .. }) => self.take_rule(RuleForm::Same, locks, charge),
            (_, Line::Join { left, right, .. }) => self.take_join(left, right),
            (Some(Kind::Bar), Line::Bar { lock, holder, .. }) => self.take_bar(
                lock,
                holder,
                Some(self.last_bar),
            ),
            (_, Line::Bar { lock, holder, .. }) => self.take_bar(lock, holder, None),
        }
    }

    // The next line, judged by the lines before; where it is taken, what it adds.
    pub(crate) fn take(&mut self, line: Line<'a>) -> Result<Entry, RecordCause>
        requires { Good (meant line) × (self.old.rows < 65536) }
        ensures { Judged (standing_of self.old) (meant line.entry) (standing_of self.new) result }
    {
        if !may_follow(self.before, line.kind()) {
            return Err(RecordCause::Misplaced);
        }
        let entry = self.enter(line)?;
        self.before = Some(line.kind());
        Ok(entry)
    }

    // The list of locks, if it has been read.
    pub(crate) fn locks(&self) -> Option<Names<'a>>
        ensures { result ≡ self.now.locks }
    {
        self.locks
    }

    // The list of holders, if it has been read.
    pub(crate) fn holders(&self) -> Option<Names<'a>>
        ensures { result ≡ self.now.holders }
    {
        self.holders
    }

    // How many rows there are.
    pub(crate) fn rows(&self) -> usize
        ensures { result ≡ self.now.rows }
    {
        self.rows
    }

    // Whether the text may end here.
    pub(crate) fn may_end(&self) -> bool
        ensures { result ≡ may_end (standing_of self.now).before }
    {
        may_end(self.before)
    }
}

// A list of at most so many names, none of them twice.
fn list_of<'a>(names: Names<'a>, most: usize) -> Result<Names<'a>, RecordCause>
    ensures { MatchResult result (λ list. (list ≡ names.entry) × Lists most (held names.entry)) (λ cause. Unlists cause most (held names.entry)) }
{
    if names.count() > most {
        return Err(RecordCause::TooMany);
    }
    if has_twice(names) {
        return Err(RecordCause::WrongName);
    }
    Ok(names)
}

// The charge of a number that is not too large for one.
fn charge_of(value: u32) -> Charge
    requires { value ≤ 1000000 }
    ensures { result ≡ charge_of value }
{
    Charge::new(value).unwrap()
}
