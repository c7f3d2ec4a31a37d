// The words of a strip.
ghost use Rattle.std.specs.Prelude.{◌≡◌, ◌+◌, ◌≤◌, ◌&&◌, eqb, length};
ghost use Rattle.arithmetic.specs.Bytes.{word_at};
ghost use Rattle.strip.specs.Words.{kind_of, i_of, j_of, rest_of};

use arithmetic::bytes::word_at;

// A strip is at most so many bytes.
pub const MOST_BYTES: usize = 65536;

// What stands at a place is malformed or cut.
#[derive(Clone, Copy, Debug, PartialEq, Eq)]
pub struct Broken;

// A head word, or a word of a list.
#[derive(Clone, Copy)]
pub struct Word(pub usize);

impl Word {
    pub fn at(s: &[u8], at: usize) -> Word
        requires { at + 4 ≤ length s.now }
        ensures { result.0 ≡ word_at s.now at }
    {
        Word(word_at(s, at))
    }

    pub fn kind(self) -> usize
        ensures { result ≡ kind_of self.0 }
    {
        self.0 / 0x1000_0000
    }

    pub fn i(self) -> u8
        ensures { result ≡ i_of self.0 }
    {
        (self.0 % 256) as u8
    }

    pub fn j(self) -> u8
        ensures { result ≡ j_of self.0 }
    {
        (self.0 / 256 % 256) as u8
    }

    // Bits 16 to 27.
    pub fn rest(self) -> usize
        ensures { result ≡ rest_of self.0 }
    {
        self.0 / 0x1_0000 % 0x1000
    }
    // Whether it is a list's word of the kind: j and bits 16 to 27 are 0.
    pub fn is_of(self, kind: usize) -> bool
        ensures { result
            ≡ (eqb (kind_of self.0) kind && (eqb (j_of self.0) 0 && eqb (rest_of self.0) 0)) }
    {
        self.kind() == kind && self.j() == 0 && self.rest() == 0
    }
}
