// The second call's test: whether a text is accepted and its rows stand at the front of a row list.
ghost use Rattle.filing.specs.Calls.{SecondCheck};

use crate::reader::Entry;
use crate::record::RowRecord;
use crate::scan::{Scan, refuse};
use book::{RecordCause, Refusal};

// How many rows the text has, where it is accepted and the list has them at its front; only reads.
pub fn check_rows(text: &[u8], rows: &[RowRecord]) -> Result<usize, Refusal>
    ensures { SecondCheck text.now rows.now result }
{
    // The loop of `fill_rows` too: in one, the row list's contract would stand again as clauses on a closure.
    let mut scan = Scan::of(text)?;
    loop {
        let place = scan.place();
        let found = scan.rows();
        let Some(entry) = scan.next()? else {
            return Ok(found);
        };
        let Entry::Row(row) = entry else {
            continue;
        };
        if rows.get(found) != Some(&row) {
            return Err(refuse(place, RecordCause::NoRoom));
        }
    }
}
