// What the two books permit, in the words of records and of holders. These functions are there for their contracts:
// each states a theorem.
ghost use Rattle.filing.specs.Written.{RowsListed};
ghost use Rattle.filing.specs.Rules.{RowsRuled};

// A row of a written book has the charge of its first record, and is absent if it has none.
pub fn rows_listed()
    ensures { RowsListed }
{}

// A row of a rule is permitted exactly when its two holders differ, or are the same, as the rule's form wants.
pub fn rows_ruled()
    ensures { RowsRuled }
{}
