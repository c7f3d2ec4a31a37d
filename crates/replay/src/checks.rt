// A line of the list of checks of a composition: the tolerance, the fractions with their length before them,
// and the number of the refusal, 0 for none.
use crate::calls::LINE_ROOM;
use crate::lists::is_stored;
use crate::words;
use crate::words::Fault;
use models::faults::check_composition;
use std::io::Read;

// A line whose tolerance has been read.
pub fn is_same<R: Read>(file: &mut R, tolerance: f64) -> Result<bool, Fault> {
    let mut room = [0.0; LINE_ROOM];
    let x = words::row(file, &mut room)?;
    let number = words::next(file, b'\n')?;
    Ok(is_stored(check_composition(tolerance, x), number, ()))
}
