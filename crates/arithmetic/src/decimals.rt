// A decimal field of a supplier's list as the nearest f64.
ghost use Rattle.std.specs.Prelude.{◌≡◌, ◌+◌, ◌*◌, ◌^◌, ◌<◌, ◌≤◌, false, length, not, position};
ghost use Rattle.arithmetic.specs.Floats.{dec};
ghost use Rattle.arithmetic.specs.Refusals.{answer_of};
ghost use Rattle.arithmetic.specs.Decimals.{is_digit, leading, digit, valued};
ghost use Rattle.arithmetic.specs.Decimals.{digits_field, pointed_field, unsigned_field, field_of};

use crate::refusal::Refusal;

// Where the first byte stands that is no digit.
fn first_other(s: &[u8]) -> Option<usize>
    ensures { result ≡ position (λ b. not (is_digit b)) s.now }
{
    s.iter().position(|b| !b.is_ascii_digit())
}

// How many digits stand first.
fn leading(s: &[u8]) -> usize
    ensures { result ≡ leading s.now }
{
    first_other(s).unwrap_or(s.len())
}

// 0 for another byte.
fn digit(b: u8) -> u64
    ensures { result ≡ digit b }
{
    if b.is_ascii_digit() {
        u64::from(b - b'0')
    } else {
        0
    }
}

// The number that has a's digits and then those of s.
fn valued(s: &[u8], a: u64) -> u64
    requires { (a + 1) * 10 ^ length s.now ≤ 10 ^ 15 }
    ensures { result ≡ valued a s.now }
{
    let mut v = a;
    for b in s {
        v = v * 10 + digit(*b);
    }
    v
}

const TENS: [f64; 15] = [
    1e0, 1e1, 1e2, 1e3, 1e4, 1e5, 1e6, 1e7, 1e8, 1e9, 1e10, 1e11, 1e12, 1e13, 1e14,
];

// 10^d.
fn ten(d: usize) -> f64
    requires { d < 15 }
    ensures { result ≡ dec false (10 ^ d) 0 }
{
    TENS[d]
}

// ±n / 10^d: both are exact, and their quotient is rounded once.
fn quotient(minus: bool, n: u64, d: usize) -> f64
    requires { (n < 10 ^ 15) × (d < 15) }
    ensures { result ≡ dec minus n d }
{
    let x = n as f64;
    let p = ten(d);
    if minus {
        return -x / p;
    }
    x / p
}

// The digits a, and b behind the point.
fn digits(minus: bool, a: &[u8], b: &[u8]) -> Result<f64, Refusal>
    requires { 0 < length a.now }
    ensures { answer_of result ≡ digits_field minus a.now b.now }
{
    if a.len() > 15 || b.len() > 15 - a.len() {
        return Err(Refusal::Digits);
    }
    let n = valued(b, valued(a, 0));
    Ok(quotient(minus, n, b.len()))
}

// The digits a, and what stands behind the point.
fn pointed(minus: bool, a: &[u8], b: &[u8]) -> Result<f64, Refusal>
    requires { 0 < length a.now }
    ensures { answer_of result ≡ pointed_field minus a.now b.now }
{
    let f = leading(b);
    if f == 0 || f != b.len() {
        return Err(Refusal::Form);
    }
    digits(minus, a, b)
}

// A field without its minus.
fn unsigned(minus: bool, s: &[u8]) -> Result<f64, Refusal>
    ensures { answer_of result ≡ unsigned_field minus s.now }
{
    let i = leading(s);
    if i == 0 {
        return Err(Refusal::Form);
    }
    let (whole, rest) = s.split_at(i);
    if rest.is_empty() {
        return digits(minus, whole, rest);
    }
    match rest.strip_prefix(b".") {
        Some(behind) => pointed(minus, whole, behind),
        None => Err(Refusal::Form),
    }
}

pub fn read(field: &[u8]) -> Result<f64, Refusal>
    ensures { answer_of result ≡ field_of field.now }
{
    match field.strip_prefix(b"-") {
        Some(size) => unsigned(true, size),
        None => unsigned(false, field),
    }
}
