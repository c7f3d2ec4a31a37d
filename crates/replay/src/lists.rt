// How a list is replayed, line by line.
use crate::words;
use crate::words::Fault;
use arithmetic::Refusal;
use arithmetic::bytes::bits_of;
use std::fmt;
use std::io::Read;

const MOST_LINES: u64 = 1000000;

// How many answers a list has, and how many of them differ.
#[derive(Clone, Copy, Default)]
pub struct Tally {
    answers: u64,
    differ: u64,
}

impl Tally {
    fn count(&mut self, same: bool) {
        self.answers = self.answers.saturating_add(1);
        if !same {
            self.differ = self.differ.saturating_add(1);
        }
    }
}

impl fmt::Display for Tally {
    fn fmt<W: fmt::Write>(&self, f: &mut fmt::Formatter<W>) -> fmt::Result {
        write!(f, "{} answers, {} differ", self.answers, self.differ)
    }
}

// Whether an answer is the stored one: the number of the refusal, 0 for none, and the value, 0 for none.
pub fn is_stored<T: Copy + PartialEq + Default>(
    answer: Result<T, Refusal>,
    number: u64,
    value: T,
) -> bool {
    match answer {
        Ok(v) => number == 0 && v == value,
        Err(refusal) => number == u64::from(u8::from(refusal)) && value == T::default(),
    }
}

// Whether the rest of a line, its last word, is this value.
pub fn is_value<R: Read>(file: &mut R, got: f64) -> Result<bool, Fault> {
    Ok(words::next(file, b'\n')? == bits_of(got))
}

// Counts a list's answers, each by `is_same`, which reads the rest of a line whose first word it is given. A
// proved loop has to end, and nothing says that a file does: of a longer list the rest counts as unread.
pub fn replay<R: Read, F: FnMut(&mut R, u64) -> Result<bool, Fault>>(
    file: &mut R,
    tally: &mut Tally,
    mut is_same: F,
) -> Result<(), Fault>
    requires { F.IsAlwaysCallable is_same }
{
    for _ in 0..MOST_LINES {
        let Some(first) = words::next_or_end(file, b' ')? else {
            return Ok(());
        };
        tally.count(is_same(file, first)?);
    }
    Err(Fault::Broken)
}
