// The first call: the rows of a text, put at the front of a lent row list.
ghost use Rattle.filing.specs.Calls.{FirstCall};

use crate::reader::Entry;
use crate::record::RowRecord;
use crate::scan::{Scan, refuse};
use book::{RecordCause, Refusal};

// Puts the rows of the text at the front of the list, in the text's order, and says how many there are. A refusal
// leaves the rows of the lines before there; what is beyond stays as it was.
pub fn fill_rows(text: &[u8], rows: &mut [RowRecord]) -> Result<usize, Refusal>
    ensures { FirstCall text.now rows.old rows.new result }
{
    // The loop of `check_rows` too: in one, the row list's contract would stand again as clauses on a closure.
    let mut scan = Scan::of(text)?;
    loop {
        let place = scan.place();
        let filled = scan.rows();
        let Some(entry) = scan.next()? else {
            return Ok(filled);
        };
        let Entry::Row(row) = entry else {
            continue;
        };
        // By index: tried get_mut, and a proof then knows the list's length and none of its rows.
        if filled >= rows.len() {
            return Err(refuse(place, RecordCause::NoRoom));
        }
        rows[filled] = row;
    }
}
