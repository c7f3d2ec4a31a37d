// The lines that the program writes.
use crate::digest::Digest;
use arithmetic::bytes::bits_of;
use mixture::{Answer, Outcome};
use std::fmt;

// The answer to a record, and the digest after it.
#[derive(Clone, Copy)]
pub struct Line {
    pub answer: Answer,
    pub digest: Digest,
}

impl fmt::Display for Line {
    fn fmt<W: fmt::Write>(&self, f: &mut fmt::Formatter<W>) -> fmt::Result {
        match self.answer {
            Ok(Outcome::Done) => write!(f, "ok")?,
            Ok(Outcome::Value(v, count)) if v.is_nan() => write!(f, "nan {count}")?,
            Ok(Outcome::Value(v, count)) => write!(f, "{:016x} {count}", bits_of(v))?,
            Err(refusal) => write!(f, "{refusal}")?,
        }
        write!(f, " {}", self.digest)
    }
}
