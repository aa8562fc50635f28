// Small networks: three shortcuts that fail, and one that meets the theorems' hypotheses.
ghost use Rattle.aggregation.specs.Examples.{SupportIsNotEnough, EarlyDropIsWrong, OwnWeightTwiceIsWrong, CountedExample, ChosenExample};

// Every permitted row may have support in each table, and yet no assignment is permitted.
pub fn support_is_not_enough()
    ensures fails { SupportIsNotEnough }
{}

// A lock that is dropped at the first join above it, while a table elsewhere has it, gives a wrong answer.
pub fn early_drop_is_wrong()
    ensures fails { EarlyDropIsWrong }
{}

// A table's weight that is counted inside its outside value too gives a wrong marginal.
pub fn own_weight_twice_is_wrong()
    ensures fails { OwnWeightTwiceIsWrong }
{}

// The hypotheses of the theorems can be met, with weights that count and with yes and no.
pub fn hypotheses_are_met()
    ensures counted { CountedExample }
    ensures chosen { ChosenExample }
{}
