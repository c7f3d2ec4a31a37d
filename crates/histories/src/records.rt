// A record of the script: twelve words of eight bytes, the lowest first, and three rows: bytes, bytes, and
// floats of eight bytes each.
ghost use Rattle.std.specs.Prelude.{◌+◌, ◌≤◌, length};
ghost use Rattle.histories.specs.Rows.{values_room, cells_room, marks_room, bytes_room, floats_room};
ghost use Rattle.histories.specs.Rows.{rows_room};

use arithmetic::bytes::word_at;

// The places of the memory: values, cells and marks.
pub const VALUES_ROOM: usize = 5400;

pub const CELLS_ROOM: usize = 1100;

pub const MARKS_ROOM: usize = 1100;

// The most bytes of a row of bytes, the most floats of the row of floats, and room for all three rows, or for
// the memory as a record of it has it.
pub const BYTES_ROOM: usize = 2000;

pub const FLOATS_ROOM: usize = 7000;

pub const ROWS_ROOM: usize = 65536;

#[derive(Clone, Copy, Debug, PartialEq, Eq)]
pub enum Kind {
    // the rows in place of the memory
    Memory,
    // a head in place of the one that the last call returned
    Head,
    // the mixture's calls
    Open,
    Load,
    Setting,
    Fractions,
    Query,
}

impl From<usize> for Kind {
    fn from(number: usize) -> Kind {
        match number {
            0 => Kind::Memory,
            2 => Kind::Open,
            3 => Kind::Load,
            4 => Kind::Setting,
            5 => Kind::Fractions,
            6 => Kind::Query,
            _ => Kind::Head,
        }
    }
}

// How many places of values, cells and marks are lent; three numbers of the call; the lengths of the rows. The
// memory has the places, and the program room for the rows.
#[derive(Clone, Copy)]
pub struct Record {
    pub kind: Kind,
    pub values: usize,
    pub cells: usize,
    pub marks: usize,
    pub a: usize,
    pub b: usize,
    pub c: usize,
    pub first: usize,
    pub second: usize,
    pub floats: usize,
    ghost values_lent: { values ≤ values_room },
    ghost cells_lent: { cells ≤ cells_room },
    ghost marks_lent: { marks ≤ marks_room },
    ghost first_fits: { first ≤ bytes_room },
    ghost second_fits: { second ≤ bytes_room },
    ghost floats_fit: { floats ≤ floats_room },
}

// The word at a place.
fn word(s: &[u8], at: usize) -> usize
    requires { at + 8 ≤ length s.now }
{
    word_at(s, at) + 4294967296 * word_at(s, at + 4)
}

impl Record {
    // The record that 96 bytes begin, if there is room for it. Two of its words are kept for later.
    pub fn begun_by(s: &[u8; 96]) -> Option<Record> {
        let values = word(s, 8);
        let cells = word(s, 16);
        let marks = word(s, 24);
        let first = word(s, 72);
        let second = word(s, 80);
        let floats = word(s, 88);
        let lent = values <= VALUES_ROOM && cells <= CELLS_ROOM && marks <= MARKS_ROOM;
        let fits = first <= BYTES_ROOM && second <= BYTES_ROOM && floats <= FLOATS_ROOM;
        if lent && fits {
            Some(Record {
                kind: Kind::from(word(s, 0)),
                values,
                cells,
                marks,
                a: word(s, 32),
                b: word(s, 40),
                c: word(s, 48),
                first,
                second,
                floats,
            })
        } else {
            None
        }
    }

    // How many bytes its rows have.
    pub fn size(&self) -> usize
        ensures { result ≤ rows_room }
    {
        self.first + self.second + 8 * self.floats
    }
}
