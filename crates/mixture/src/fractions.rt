// Fractions: document 01, "Mixture".
ghost use Rattle.std.specs.Prelude.{◌≡◌};
ghost use Rattle.mixture.specs.Memory.{memory, left};
ghost use Rattle.mixture.specs.Calls.{after_fractions};

use crate::answers::{Outcome, Reply};
use crate::faults::{Lengths, fractions_fault};
use crate::head::{Head, padded};

// Keeps the fractions, with 0 in the places past n.
pub fn fractions(values: &[f64], cells: &[f64], marks: &[u8], head: Head, x: &[f64]) -> Reply
    ensures { left (memory values.now cells.now marks.now) result
        ≡ after_fractions (memory values.now cells.now marks.now) head x.now }
{
    match fractions_fault(Lengths::of(values, cells, marks), head, x) {
        Ok(()) => Reply {
            head: Head {
                x: padded(x, 0.0),
                has_x: true,
                ..head
            },
            answer: Ok(Outcome::Done),
        },
        Err(refusal) => Reply {
            head,
            answer: Err(refusal),
        },
    }
}
