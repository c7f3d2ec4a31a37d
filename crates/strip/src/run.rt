// The run of a strip: from record to record on a mixture of its own.
ghost use Rattle.std.specs.Prelude.{◌≤◌};
ghost use Rattle.strip.specs.Text.{Put};
ghost use Rattle.strip.specs.Run.{transcript, most_text};
ghost use Rattle.strip.specs.Steps.Run.{lent, walked};

use crate::calls::Mixture;
use crate::records::read_at;
use crate::text::{put, put_answer};
use crate::words::{Broken, MOST_BYTES};
use mixture::faults::{CELLS, MARKS, VALUES};

// A line for each record, and `broken` at the first that is malformed or cut; of an over-long strip only
// that.
fn walk(s: &[u8], mixture: &mut Mixture, out: &mut [u8]) -> usize
    ensures { Put out.old 0 (walked s.now (lent mixture.old) mixture.old.head) result out.new
        × (result ≤ most_text) }
{
    if MOST_BYTES < s.len() {
        return put(out, 0, b"broken\n");
    }
    let mut at: usize = 0;
    let mut pos: usize = 0;
    loop {
        match read_at(s, at) {
            Ok(None) => {
                return pos;
            }
            Err(Broken) => {
                return pos + put(out, pos, b"broken\n");
            }
            Ok(Some(r)) => {
                let answer = mixture.make(s, r);
                pos += put_answer(out, pos, answer);
                at = r.next;
            }
        }
    }
}

// Stores the text of a strip into `out`, as far as it fits, and answers how long it is.
pub fn run(strip: &[u8], out: &mut [u8]) -> usize
    ensures { Put out.old 0 (transcript strip.now) result out.new
        × (result ≤ most_text) }
{
    let values = [0.0; VALUES];
    let cells = [0.0; CELLS];
    let marks = [0u8; MARKS];
    let opened = mixture::open::open(&values, &cells, &marks, mixture::head::no_head());
    let mut own = Mixture {
        values,
        cells,
        marks,
        head: opened.head,
    };
    walk(strip, &mut own, out)
}
