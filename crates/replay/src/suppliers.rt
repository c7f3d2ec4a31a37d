// A supplier's list with its answer: a line with n, how many entries are lent and the text's length, the
// bytes of the text, and a line with the number of values, these, and the number that is given, 0 for none.
use crate::lists::is_stored;
use crate::words;
use crate::words::Fault;
use arithmetic::bytes::bits_of;
use models::suppliers::import;
use std::io::Read;

const MOST_TEXT: usize = 4096;

// Room for the entries: for more than any list has, since a slice may be one that is refused.
const ENTRIES_ROOM: usize = 320;

// What stands in every place before the call, and after it where nothing was written.
const BEFORE: f64 = 0.5;

fn same(a: &[f64], b: &[f64]) -> bool {
    a.iter()
        .zip(b.iter())
        .all(|(a, b)| bits_of(*a) == bits_of(*b))
}

// A list whose n has been read. The answer and all places are held against the second line.
pub fn is_same<R: Read>(file: &mut R, n: usize) -> Result<bool, Fault> {
    let lent = words::length(file, ENTRIES_ROOM);
    if let Err(Fault::Io(e)) = lent {
        return Err(Fault::Io(e));
    }
    let m = words::next(file, b'\n')?;
    let lent = lent?;
    let mut room = [0u8; MOST_TEXT];
    let text = words::bytes(file, &mut room, m as usize)?;
    let mut entries = [BEFORE; ENTRIES_ROOM];
    let answer = import(text, n, &mut entries[..lent]);
    let mut stored = [BEFORE; ENTRIES_ROOM];
    words::row(file, &mut stored)?;
    let number = words::next(file, b'\n')?;
    Ok(is_stored(answer, number, ()) && same(&entries, &stored))
}
