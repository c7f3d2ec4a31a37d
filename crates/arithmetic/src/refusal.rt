// What a call is refused for, by documents 01 and 02.
ghost use Rattle.std.specs.Prelude.{◌≡◌};
ghost use Rattle.arithmetic.specs.Refusals.{number};

use std::error::Error;
use std::fmt;

// A refusal's number in the documents is its place here.
#[derive(Clone, Copy, Debug, PartialEq, Eq)]
pub enum Refusal {
    // a lent slice is short, or the head is out of range
    Memory = 1,
    // n, ng or a list's length is out of range, or a slice is of another length
    Shape,
    // a group is ng or more
    Group,
    // a count is below 0
    Count,
    // no fractions
    Empty,
    // the sum of the fractions is off 1
    Sum,
    // the fractions aren't n, or there is no component i
    Index,
    // no model
    NoModel,
    // T or fractions are unset
    Unset,
    // the model has no such case or index
    NoSuchCase,
    // the panel can't show it
    NotShown,
    // a field, row or end of a supplier's list is of another form
    Form,
    // a field has more than 15 digits
    Digits,
    // a tolerance is out of range
    Tolerance,
}

impl From<Refusal> for u8 {
    ghost from_gives = { λ r k. k ≡ number r };

    fn from(r: Refusal) -> u8 {
        r as u8
    }
}

impl fmt::Display for Refusal {
    fn fmt<W: fmt::Write>(&self, f: &mut fmt::Formatter<W>) -> fmt::Result {
        write!(f, "refused {}", u8::from(*self))
    }
}

impl Error for Refusal {}
