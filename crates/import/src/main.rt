// Imports a supplier's list: `import N < list.csv` writes the entries that a load of N components begins
// with, by rows, each as 16 hexadecimal digits on a line of its own, or `refused` and the number.
#![tactic(auto)]

ghost use Rattle.std.specs.Prelude.{◌≤◌, IfSome};

use arithmetic::Refusal;
use arithmetic::bytes::bits_of;
use models::limits::PAIRS;
use models::suppliers::import;
use reading::read_full;
use std::io;
use std::rt::Env;

// A longer text isn't read on: no list has more than 2,592 bytes, which are 144 fields of a minus, 15 digits,
// a point and what ends them.
const MOST_BYTES: usize = 65536;

// From 1 to 12, or none for any other word.
fn count_of(word: &[u8]) -> Option<usize>
    ensures { IfSome result (λ n. n ≤ 12) }
{
    match word {
        [digit @ b'1'..=b'9'] => Some(usize::from(*digit - b'0')),
        [b'1', digit @ b'0'..=b'2'] => Some(usize::from(*digit - b'0') + 10),
        _ => None,
    }
}

fn square(n: usize) -> usize
    requires { n ≤ 12 }
    ensures { result ≤ 144 }
{
    n * n
}

// The list's entries, which are read into those lent. 2 for the word stands first, before a text that is too
// long.
fn imported<'a>(
    word: &[u8],
    text: &[u8],
    entries: &'a mut [f64; PAIRS],
) -> Result<&'a [f64], Refusal> {
    let n = count_of(word).ok_or(Refusal::Shape)?;
    if MOST_BYTES < text.len() {
        return Err(Refusal::Form);
    }
    let entries = &mut entries[..square(n)];
    import(text, n, entries)?;
    Ok(entries)
}

fn show(rt: &impl Print, entries: &[f64]) -> io::Result<()> {
    for entry in entries {
        println!(rt; "{:016x}", bits_of(*entry))?;
    }
    Ok(())
}

fn main(rt: HostRuntime) -> io::Result<()> {
    // where there is no word, or a longer one, it is empty
    let mut word = [0u8; 3];
    let length = rt.arg(1, &mut word).unwrap_or(0);
    let mut text = [0u8; MOST_BYTES + 1];
    let read = read_full(&mut rt.stdin(), &mut text)?;
    let mut entries = [0.0; PAIRS];
    match imported(&word[..length], &text[..read], &mut entries) {
        Ok(entries) => show(&rt, entries),
        Err(refusal) => println!(rt; "{refusal}"),
    }
}
