ghost use Rattle.std.specs.Prelude.{◌≡◌, Some};
ghost use Rattle.book.specs.Refusals.{number, place, word, printed};

use super::{Layer, Refusal};
use std::error::Error;
use std::fmt;

impl Refusal {
    // Its number among the sixteen.
    pub fn number(&self) -> u8
        ensures { result ≡ number self.now }
    {
        match self.layer {
            Layer::Line { cause, .. } => cause as u8,
            Layer::Record { cause, .. } => cause as u8,
            Layer::Book { cause, .. } => cause as u8,
            Layer::Order { cause, .. } => cause as u8,
            Layer::Question { cause, .. } => cause as u8,
        }
    }

    // Where it applies: the number of a line, a lock, a join, a length, as its kind says.
    pub fn place(&self) -> usize
        ensures { result ≡ place self.now }
    {
        match self.layer {
            Layer::Line { place, .. }
            | Layer::Record { place, .. }
            | Layer::Book { place, .. }
            | Layer::Order { place, .. }
            | Layer::Question { place, .. } => place,
        }
    }

    // The word of its layer.
    pub fn word(&self) -> &'static str
        ensures { result.now ≡ word self.now }
    {
        match self.layer {
            Layer::Line { .. } => "line",
            Layer::Record { .. } => "record",
            Layer::Book { .. } => "book",
            Layer::Order { .. } => "order",
            Layer::Question { .. } => "question",
        }
    }
}

// As a program prints it: its number, its layer's word and its place.
impl fmt::Display for Refusal {
    ghost output = { λ r. Some (printed r) };

    fn fmt<W: fmt::Write>(&self, f: &mut fmt::Formatter<W>) -> fmt::Result {
        let number = self.number();
        let word = self.word();
        let place = self.place();
        write!(f, "refusal={number},{word},{place}")
    }
}

impl Error for Refusal {}
