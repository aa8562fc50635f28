ghost use Rattle.lines.specs.Texts.{SpellingIsOneToOne, TextHasOneReading};

// Each line value has one spelling, and each spelling one value.
pub fn spelling_is_one_to_one()
    ensures { SpellingIsOneToOne }
{}

// A text is cut into lines in one way.
pub fn text_has_one_reading()
    ensures { TextHasOneReading }
{}
