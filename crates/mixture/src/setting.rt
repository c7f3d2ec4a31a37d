// A setting: one of six cases, each with its own f64.
use arithmetic::TdParam;

#[derive(Clone, Copy)]
pub enum Setting {
    Temperature(f64),
    // i, j: energy, or α in NRTL
    Entry(usize, usize, f64),
    // i, j: τ, or UNIFAC's a
    TdEntry(usize, usize, TdParam),
    // i, which: 0 for V, r or R, 1 for q or Q
    Size(usize, usize, f64),
    // component i, list place j
    Count(usize, usize, f64),
    // how far a sum of fractions may be off 1
    Tolerance(f64),
}
