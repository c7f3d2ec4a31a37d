// The words of a list: 16 lowercase hexadecimal digits, followed by one blank, or by LF at the end of
// a line.
ghost use Rattle.std.specs.Prelude.{◌≡◌, ◌≤◌, length, IfOk, IfSome};

use arithmetic::bytes::float_of;
use reading::read_full;
use std::io;
use std::io::Read;

// Why a list can't be read on: it is of another form, or the file can't be read.
#[derive(Debug, Drop)]
pub enum Fault {
    Broken,
    Io(io::Error),
}

impl From<io::Error> for Fault {
    fn from(e: io::Error) -> Fault {
        Fault::Io(e)
    }
}

// What stands in a row: an f64 by its bits, or a byte.
pub trait Entry: Copy {
    fn of_word(bits: u64) -> Result<Self, Fault>;
}

impl Entry for f64 {
    fn of_word(bits: u64) -> Result<f64, Fault> {
        Ok(float_of(bits))
    }
}

impl Entry for u8 {
    fn of_word(bits: u64) -> Result<u8, Fault> {
        u8::try_from(bits).or(Err(Fault::Broken))
    }
}

// The value of a digit.
fn digit(b: u8) -> Option<u64>
    ensures { IfSome result (λ d. d ≤ 15) }
{
    match b {
        b'0'..=b'9' => Some(u64::from(b - b'0')),
        b'a'..=b'f' => Some(u64::from(b - b'a') + 10),
        _ => None,
    }
}

// The word that digits spell. Each of them moves the others up by four bits.
fn spelt(digits: &[u8]) -> Option<u64> {
    let mut bits = 0;
    for b in digits {
        bits = bits << 4 | digit(*b)?;
    }
    Some(bits)
}

// The next word of a file, which the byte `after` follows, or none at the file's end.
pub fn next_or_end<R: Read>(file: &mut R, after: u8) -> Result<Option<u64>, Fault> {
    let mut text = [0u8; 17];
    match read_full(file, &mut text)? {
        0 => Ok(None),
        17 if text[16] == after => Ok(Some(spelt(&text[..16]).ok_or(Fault::Broken)?)),
        _ => Err(Fault::Broken),
    }
}

// The next word, where there has to be one.
pub fn next<R: Read>(file: &mut R, after: u8) -> Result<u64, Fault> {
    next_or_end(file, after)?.ok_or(Fault::Broken)
}

// The next word, as a length for which there is room.
pub fn length<R: Read>(file: &mut R, room: usize) -> Result<usize, Fault>
    ensures { IfOk result (λ n. n ≤ room) }
{
    let n = next(file, b' ')? as usize;
    if room < n { Err(Fault::Broken) } else { Ok(n) }
}

// The row that follows, with its length before it, read into the first places.
pub fn row<'a, R: Read, T: Entry>(file: &mut R, room: &'a mut [T]) -> Result<&'a [T], Fault>
    ensures { IfOk result (λ s. length s.now ≤ length room.old) }
{
    let n = length(file, room.len())?;
    let row = &mut room[..n];
    for entry in row.iter_mut() {
        *entry = T::of_word(next(file, b' ')?)?;
    }
    Ok(row)
}

// The next n bytes, read into the first places.
pub fn bytes<'a, R: Read>(file: &mut R, room: &'a mut [u8], n: usize) -> Result<&'a [u8], Fault>
    ensures { IfOk result (λ s. length s.now ≡ n) }
{
    if room.len() < n {
        return Err(Fault::Broken);
    }
    let bytes = &mut room[..n];
    if read_full(file, bytes)? < n {
        return Err(Fault::Broken);
    }
    Ok(bytes)
}
