// The records of a strip.
ghost use Rattle.std.specs.Prelude.{◌≡◌};
ghost use Rattle.strip.specs.Records.{read_at};
ghost use Rattle.strip.specs.Steps.Run.{rec_of, read_of, fits};

use crate::kinds::{Content, Kind};
use crate::lists::{has, lists_end};
use crate::words::{Broken, MOST_BYTES, Word};

// A record that was read: its head word's fields, what follows that, and where its floats start and the next
// record does.
#[derive(Clone, Copy)]
pub struct Record {
    pub kind: Kind,
    pub i: u8,
    pub j: u8,
    pub content: Content,
    pub body: usize,
    pub next: usize,
}

impl Record {
    // Whether it has its kind's content, and its floats lie in a strip that isn't over-long.
    pub fn fits(self, s: &[u8]) -> bool
        ensures { result ≡ fits s.now (rec_of self) }
    {
        if MOST_BYTES < s.len() {
            return false;
        }
        match self.kind.content(self.i, self.j) {
            Some(content) => { content == self.content && has(s, self.body, 8 * content.floats) }
            None => false,
        }
    }
}

// Reads what stands at a place: a record, or nothing at the end.
pub fn read_at(s: &[u8], at: usize) -> Result<Option<Record>, Broken>
    ensures { read_of result ≡ read_at s.now at }
{
    if s.len() <= at {
        return Ok(None);
    }
    if s.len() < at + 4 {
        return Err(Broken);
    }
    let w = Word::at(s, at);
    let i = w.i();
    let j = w.j();
    if w.rest() != 0 {
        return Err(Broken);
    }
    let kind = Kind::try_from(w.kind())?;
    let content = kind.content(i, j).ok_or(Broken)?;
    let body = at + 4;
    let next = lists_end(s, body + 8 * content.floats, content.lists)?;
    if s.len() < next {
        return Err(Broken);
    }
    Ok(Some(Record {
        kind,
        i,
        j,
        content,
        body,
        next,
    }))
}
