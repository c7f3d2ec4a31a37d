// A line of a model's list: what is asked (0 ln γ of i, 1 γ of i, 2 the excess energy), i, n, ng, the
// lengths of the group lists, the groups, the values, T, the fractions; then the number of the
// refusal, 0 for none, and the value, 0 for none. The four rows have their lengths before them.
use crate::lists::is_stored;
use crate::words;
use crate::words::Fault;
use arithmetic::bytes::{bits_of, float_of};
use models::faults::usual_tolerance;
use models::limits::VALUES;
use models::{Data, Model, Quantity};
use std::io::Read;

// Room for the fractions or the lists of a line, and for the groups of these: for more than any model has,
// since a line may be one that is refused for that.
pub const LINE_ROOM: usize = 16;

const GROUPS_ROOM: usize = 160;

fn quantity(asked: u64, i: usize) -> Result<Quantity, Fault> {
    match asked {
        0 => Ok(Quantity::LnGamma(i)),
        1 => Ok(Quantity::Gamma(i)),
        2 => Ok(Quantity::ExcessGibbs),
        _ => Err(Fault::Broken),
    }
}

// A line whose first word has been read.
pub fn is_same<R: Read>(file: &mut R, model: Model, asked: u64) -> Result<bool, Fault> {
    let i = words::next(file, b' ')? as usize;
    let n = words::next(file, b' ')? as usize;
    let ng = words::next(file, b' ')? as usize;
    let q = quantity(asked, i)?;
    let mut lens_room = [0u8; LINE_ROOM];
    let lens = words::row(file, &mut lens_room)?;
    let mut groups_room = [0u8; GROUPS_ROOM];
    let groups = words::row(file, &mut groups_room)?;
    let mut values_room = [0.0; VALUES];
    let values = words::row(file, &mut values_room)?;
    let t = float_of(words::next(file, b' ')?);
    let mut x_room = [0.0; LINE_ROOM];
    let x = words::row(file, &mut x_room)?;
    let given = Data {
        model,
        n,
        ng,
        lens,
        groups,
        values,
    };
    let answer = given.plain(t, usual_tolerance(), x, q);
    let number = words::next(file, b' ')?;
    let value = words::next(file, b'\n')?;
    Ok(is_stored(answer.map(|v| bits_of(v)), number, value))
}
