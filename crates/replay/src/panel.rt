// A line of the list of millionths: the input, the number of the refusal, 0 for none, and the millionths, 0
// for none, as a sign, 0 or 1 for a number below 0, and a size.
use crate::lists::is_stored;
use crate::words;
use crate::words::Fault;
use arithmetic::millionths::millionths;
use std::io::Read;

// The largest number that is shown.
const MOST: u64 = 2048000000;

// A line whose input has been read.
pub fn is_same<R: Read>(file: &mut R, v: f64) -> Result<bool, Fault> {
    let number = words::next(file, b' ')?;
    let sign = words::next(file, b' ')?;
    let size = words::next(file, b'\n')?;
    if MOST < size {
        return Err(Fault::Broken);
    }
    let shown = match sign {
        0 => size as i64,
        1 => -(size as i64),
        _ => return Err(Fault::Broken),
    };
    Ok(is_stored(millionths(v), number, shown))
}
