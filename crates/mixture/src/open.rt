// Opening: document 01, "Mixture".
ghost use Rattle.std.specs.Prelude.{◌≡◌};
ghost use Rattle.mixture.specs.Memory.{memory, left};
ghost use Rattle.mixture.specs.Calls.{after_open};

use crate::answers::{Outcome, Reply};
use crate::faults::{Lengths, memory_fault};
use crate::head::{Head, no_head};

// Writes no lent place and leaves no model.
pub fn open(values: &[f64], cells: &[f64], marks: &[u8], head: Head) -> Reply
    ensures { left (memory values.now cells.now marks.now) result
        ≡ after_open (memory values.now cells.now marks.now) head }
{
    match memory_fault(Lengths::of(values, cells, marks)) {
        Ok(()) => Reply {
            head: no_head(),
            answer: Ok(Outcome::Done),
        },
        Err(refusal) => Reply {
            head,
            answer: Err(refusal),
        },
    }
}
