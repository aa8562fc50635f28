// A line of a text, with its parts where they stand there: nothing is copied but numbers.
ghost use Rattle.std.specs.Prelude.{◌≡◌};
ghost use Rattle.lines.specs.Told.{kind_of, meant};

use super::kind::Kind;
use super::names::Names;

// Each case has its place, the number of the line from 1.
#[derive(Clone, Copy)]
pub enum Line<'a> {
    Locks {
        place: usize,
        names: Names<'a>,
    },
    Holders {
        place: usize,
        names: Names<'a>,
    },
    Table {
        place: usize,
        locks: Names<'a>,
    },
    Row {
        place: usize,
        holders: Names<'a>,
        charge: u32,
    },
    Differ {
        place: usize,
        locks: Names<'a>,
        charge: u32,
    },
    Same {
        place: usize,
        locks: Names<'a>,
        charge: u32,
    },
    Join {
        place: usize,
        left: usize,
        right: usize,
    },
    Bar {
        place: usize,
        lock: &'a [u8],
        holder: &'a [u8],
    },
}

impl<'a> Line<'a> {
    // The kind of the line.
    pub fn kind(self) -> Kind
        ensures { result ≡ kind_of (meant self.entry) }
    {
        match self {
            Line::Locks { .. } => Kind::Locks,
            Line::Holders { .. } => Kind::Holders,
            Line::Table { .. } => Kind::Table,
            Line::Row { .. } => Kind::Row,
            Line::Differ { .. } => Kind::Differ,
            Line::Same { .. } => Kind::Same,
            Line::Join { .. } => Kind::Join,
            Line::Bar { .. } => Kind::Bar,
        }
    }
}
