// Reading a text line by line: each line from the bytes that are left, judged by the lines before it.
ghost use Rattle.std.specs.Prelude.{◌≡◌, ◌+◌, ◌<◌, ◌≤◌, length, MatchOption, MatchResult};
ghost use Rattle.filing.specs.Reading.{record_refusal, too_long};

use crate::reader::{Entry, Reader};
use book::{Layer, LineCause, RecordCause, Refusal};
use lines::{Names, take_line};

// The most bytes that a text has.
const LONGEST: usize = 65_535;

#[derive(Clone, Copy)]
pub(crate) struct Scan<'a> {
    reader: Reader<'a>,
    // What is left of the text, and the number of the line that begins it.
    rest: &'a [u8],
    place: usize,
    // Each line has a byte at least, so no count outgrows the text.
    ghost few_rows: { reader.rows + length rest.now ≤ 65535 },
    ghost few_lines: { place + length rest.now ≤ 65536 },
}

// The refusal of the line at a place.
pub(crate) fn refuse(place: usize, cause: RecordCause) -> Refusal
    ensures { result ≡ record_refusal place cause }
{
    Refusal {
        layer: Layer::Record { place, cause },
    }
}

impl<'a> Scan<'a> {
    ghost use Rattle.filing.specs.Scanning.{Opened, Stepped, Halted, Scanned};

    // At the start of a text that is not too long.
    pub(crate) fn new(text: &'a [u8]) -> Scan<'a>
        requires { length text.now ≤ 65535 }
        ensures { Opened text.now result }
    {
        Scan {
            reader: Reader::new(),
            rest: text,
            place: 1,
        }
    }

    // At the start of a text, unless it is too long.
    pub(crate) fn of(text: &'a [u8]) -> Result<Scan<'a>, Refusal>
        ensures { MatchResult result (λ scan. (length text.now ≤ 65535) × Opened text.now scan) (λ e. (65535 < length text.now) × (e ≡ too_long)) }
    {
        if text.len() > LONGEST {
            // Written out here: `refuse` makes a record's refusal, and this one of the line layer has no second place.
            return Err(Refusal {
                layer: Layer::Line {
                    place: 0,
                    cause: LineCause::TooLong,
                },
            });
        }
        Ok(Scan::new(text))
    }

    // The list of locks, if it has been read.
    pub(crate) fn locks(&self) -> Option<Names<'a>>
        ensures { result ≡ self.now.reader.locks }
    {
        self.reader.locks()
    }

    // The list of holders, if it has been read.
    pub(crate) fn holders(&self) -> Option<Names<'a>>
        ensures { result ≡ self.now.reader.holders }
    {
        self.reader.holders()
    }

    // How many rows have been read.
    pub(crate) fn rows(&self) -> usize
        ensures { result ≡ self.now.reader.rows }
    {
        self.reader.rows()
    }

    // The number of the line that comes next.
    pub(crate) fn place(&self) -> usize
        ensures { result ≡ self.now.place }
    {
        self.place
    }

    // What the next line adds, or nothing at the end; a refusal where the line, or the end, cannot come here.
    // Not an Iterator: callers ask the scan for its place and rows between two lines, so it stands in no `for`.
    pub(crate) fn next(&mut self) -> Result<Option<Entry>, Refusal>
        ensures { Scanned self.old self.new result }
    {
        if self.rest.is_empty() {
            if !self.reader.may_end() {
                return Err(refuse(self.place, RecordCause::Misplaced));
            }
            return Ok(None);
        }
        let place = self.place;
        let (line, rest) = take_line(self.rest, place)?;
        let mut reader = self.reader;
        let entry = reader.take(line).map_err(|cause| refuse(place, cause))?;
        *self = Scan {
            reader,
            rest,
            place: place + 1,
        };
        Ok(Some(entry))
    }

    // What the next line adds; nothing at the end, or where the line cannot come here.
    pub(crate) fn step(&mut self) -> Option<Entry>
        ensures { MatchOption result (Halted self.old × (self.new ≡ self.old)) (λ e. Stepped self.old self.new e) }
    {
        self.next().ok()?
    }
}
