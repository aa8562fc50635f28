// What holds of every text, whatever its bytes.
ghost use Rattle.filing.specs.Verdicts.{OneVerdictEach, SecondFollows};

// No text is both accepted and refused, and each has one reading or one refusal.
pub fn text_has_one_verdict()
    ensures { OneVerdictEach }
{}

// Where the first call accepts a text, the second does so with the row list that the first leaves.
pub fn second_call_follows_first()
    ensures { SecondFollows }
{}
