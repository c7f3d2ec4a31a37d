// A supplier's list of energies, for a load of Wilson or UNIQUAC: document 02, Change 2.
ghost use Rattle.std.specs.Prelude.{◌≡◌, ◌+◌, ◌*◌, ◌≤◌, length, take, drop, position, OnOk};
ghost use Rattle.arithmetic.specs.Refusals.{number_of};
ghost use Rattle.models.specs.Limits.{most_components, most_named};
ghost use Rattle.models.specs.Suppliers.{ends, field_length, text_fault, text_values, import_fault, imported};
ghost use Rattle.models.specs.Suppliers.{separator};

use crate::faults::shape_fault;
use crate::limits::{NAMED, PAIRS};
use arithmetic::Refusal;
use arithmetic::decimals::read;
use arithmetic::slices::copy;

// Where the first comma or line feed stands.
fn first_end(text: &[u8]) -> Option<usize>
    ensures { result ≡ position ends text.now }
{
    text.iter().position(|b| *b == b',' || *b == b'\n')
}

// Where the field ends that begins at a place: at the next comma or line feed, or with the text.
fn field_end(text: &[u8], at: usize) -> usize
    requires { at ≤ length text.now }
    ensures { (result ≡ at + field_length (drop at text.now))
        × (at ≤ result)
        × (result ≤ length text.now) }
{
    match first_end(&text[at..]) {
        Some(length) => at + length,
        None => text.len(),
    }
}

// What has to end a field that m more follow.
fn separator(n: usize, m: usize) -> u8
    requires { 1 ≤ n }
    ensures { result ≡ separator n m }
{
    if m % n == 0 { b'\n' } else { b',' }
}

// Reads the fields in turn into the first places, up to the first fault.
fn read_fields(text: &[u8], n: usize, entries: &mut [f64]) -> Result<(), Refusal>
    requires { (1 ≤ n) × (n ≤ most_components) × (n * n ≤ length entries.old) }
    ensures refused { number_of result ≡ text_fault n (n * n) text.now }
    ensures passed { OnOk result (take (n * n) entries.new ≡ text_values (n * n) text.now) }
{
    let mut at = 0;
    let count = n * n;
    for k in 0..count {
        let left = count - 1 - k;
        let end = field_end(text, at);
        let v = read(&text[at..end])?;
        entries[k] = v;
        if end == text.len() || text[end] != separator(n, left) {
            return Err(Refusal::Form);
        }
        at = end + 1;
    }
    if at < text.len() {
        return Err(Refusal::Form);
    }
    Ok(())
}

// How many entries n components have. Past 255, which `shape_fault` refuses, it answers 0.
fn square(n: usize) -> usize
    ensures { n ≤ most_named → result ≡ n * n }
{
    if NAMED < n { 0 } else { n * n }
}

// Writes the energies of n components by rows, a_ii too; or refuses for the first fault, 2, 12 or 13, and writes
// nothing.
pub fn import(text: &[u8], n: usize, entries: &mut [f64]) -> Result<(), Refusal>
    ensures refused { number_of result ≡ import_fault n entries.old text.now }
    ensures entries { entries.new ≡ imported n entries.old text.now }
{
    let count = square(n);
    shape_fault(n, count, entries)?;
    let mut found = [0.0; PAIRS];
    read_fields(text, n, &mut found)?;
    copy(&found[..count], entries);
    Ok(())
}
