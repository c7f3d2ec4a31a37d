// A strip of the list: a line with its length and that of its text, then the bytes of both.
use crate::words;
use crate::words::Fault;
use std::io::Read;

const MOST: usize = 4096;

const MOST_TEXT: usize = 8192;

// Whether a run of the strip writes this text.
fn writes(strip: &[u8], text: &[u8]) -> bool {
    let mut out = [0u8; MOST_TEXT];
    let n = strip::run::run(strip, &mut out);
    n <= MOST_TEXT && &out[..n] == text
}

// From the text's length on, of a strip of n bytes.
pub fn is_same<R: Read>(file: &mut R, n: usize) -> Result<bool, Fault> {
    let m = words::next(file, b'\n')?;
    let mut strip_room = [0u8; MOST];
    let strip = words::bytes(file, &mut strip_room, n)?;
    let mut text_room = [0u8; MOST_TEXT];
    let text = words::bytes(file, &mut text_room, m as usize)?;
    Ok(writes(strip, text))
}
