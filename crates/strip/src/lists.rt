// The group lists of a kind 4: a kind 12 for each component, and its kinds 13, each with its count.
ghost use Rattle.std.specs.Prelude.{◌≡◌, ◌+◌, ◌≤◌, leb, length, set, MatchResult, true, false};
ghost use Rattle.arithmetic.specs.Bytes.{word_at};
ghost use Rattle.strip.specs.Words.{i_of};
ghost use Rattle.strip.specs.GroupLists.{is_word, lists_at};
ghost use Rattle.strip.specs.Steps.Run.{Stepped, EndsAt, Stored, ahead_of};

use crate::words::{Broken, Word};
use arithmetic::bytes::float_at;

// The kinds of a list's length, and of a group with its count.
const LIST: usize = 12;

const GROUP: usize = 13;

// A walk along lists: how many lists it has still to begin, and how many groups the one that it is in has left.
#[derive(Clone, Copy)]
pub struct Walk {
    pub place: usize,
    pub lists: usize,
    pub groups: usize,
}

// What a walk comes to: a list of so many groups, or a group with its count.
#[derive(Clone, Copy)]
pub enum Part {
    ListOf(u8),
    Group(u8, f64),
}

// How many lists were met, and how many groups in them.
#[derive(Clone, Copy)]
pub struct Met {
    pub lists: usize,
    pub groups: usize,
}

// Whether n bytes stand from p on.
pub fn has(s: &[u8], p: usize, n: usize) -> bool
    ensures { result ≡ leb (p + n) (length s.now) }
{
    n <= s.len() && p <= s.len() - n
}

// The field i of a list's word of the kind at p, where n bytes stand from there on.
fn i_of_word(s: &[u8], kind: usize, n: usize, p: usize) -> Result<u8, Broken>
    requires { 4 ≤ n }
    ensures { MatchResult result
        (λ i. (is_word s.now kind n p ≡ true) × (i ≡ i_of (word_at s.now p)))
        (λ _. is_word s.now kind n p ≡ false) }
{
    if !has(s, p, n) {
        return Err(Broken);
    }
    let w = Word::at(s, p);
    if !w.is_of(kind) {
        return Err(Broken);
    }
    Ok(w.i())
}

impl Walk {
    // Takes what stands next; at the end of the lists there is nothing.
    fn next(&mut self, s: &[u8]) -> Result<Option<Part>, Broken>
        ensures { Stepped s.now self.old self.new result }
    {
        if self.groups != 0 {
            let group = i_of_word(s, GROUP, 12, self.place)?;
            let count = float_at(s, self.place + 4);
            self.groups -= 1;
            self.place += 12;
            return Ok(Some(Part::Group(group, count)));
        }
        if self.lists == 0 {
            return Ok(None);
        }
        let size = i_of_word(s, LIST, 4, self.place)?;
        self.lists -= 1;
        self.groups = size as usize;
        self.place += 4;
        Ok(Some(Part::ListOf(size)))
    }
}

// Where the lists of n components end.
pub fn lists_end(s: &[u8], at: usize, n: usize) -> Result<usize, Broken>
    ensures { EndsAt (lists_at s.now n at) at result }
{
    let mut walk = Walk {
        place: at,
        lists: n,
        groups: 0,
    };
    while walk.next(s)?.is_some() {}
    Ok(walk.place)
}

// Stores a value where there is a place for it.
fn store<T: Copy>(l: &mut [T], at: usize, v: T)
    ensures { l.new ≡ set l.old at v }
{
    if at < l.len() {
        l[at] = v;
    }
}

// Stores the lengths of n lists, their groups and their counts, as far as there is room, up to the first word
// that is missing.
pub fn fill_lists(
    s: &[u8],
    at: usize,
    n: usize,
    lens: &mut [u8],
    groups: &mut [u8],
    counts: &mut [f64],
) -> Met
    ensures { Stored (lists_at s.now n at) result
        lens.old groups.old counts.old
        lens.new groups.new counts.new }
{
    let mut walk = Walk {
        place: at,
        lists: n,
        groups: 0,
    };
    let mut met = Met {
        lists: 0,
        groups: 0,
    };
    while let Ok(Some(part)) = walk.next(s) {
        match part {
            Part::ListOf(size) => {
                store(lens, met.lists, size);
                met.lists += 1;
            }
            Part::Group(group, count) => {
                store(groups, met.groups, group);
                store(counts, met.groups, count);
                met.groups += 1;
            }
        }
    }
    met
}
