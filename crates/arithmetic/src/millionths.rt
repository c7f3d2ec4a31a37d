// An f64 as the panel shows it: a whole number of millionths.
ghost use Rattle.std.specs.Prelude.{◌≡◌, ◌*◌, ◌^◌, ◌<◌, ◌≤◌};
ghost use Rattle.std.specs.Float.Ieee.Nearest.{closest};
ghost use Rattle.arithmetic.specs.Refusals.{answer_of};
ghost use Rattle.arithmetic.specs.Millionths.{millionths_of};

use crate::refusal::Refusal;

// n / 2^s to the nearest whole number, a tie to the even one.
fn rounded(n: u64, s: u64) -> u64
    requires { (n < 2 ^ 50) × (s < 51) }
    ensures { (result ≡ closest n (2 ^ s)) × (result ≤ 2 ^ 50) }
{
    let p = 1u64 << s;
    let w = n / p;
    let r = n % p * 2;
    if r < p {
        return w;
    }
    if p < r {
        return w + 1;
    }
    w + w % 2
}

// q · 10^6 / 2^d to the nearest whole number, a tie to the even one. The product has up to 73 bits: of its
// lowest 26 only counts whether one is set.
fn in_millionths(q: u64, d: u64) -> u64
    requires { (q < 2 ^ 53) × (42 ≤ d) × (d ≤ 75) }
    ensures { (result ≡ closest (q * 1000000) (2 ^ d)) × (result ≤ 2 ^ 50) }
{
    let low = q % 0x400_0000 * 1000000;
    let high = q / 0x400_0000 * 1000000 + low / 0x400_0000;
    if low % 0x400_0000 == 0 {
        return rounded(high * 2, d - 25);
    }
    rounded(high * 2 + 1, d - 25)
}

// By the bits: from 2048 on the exponent's field is 1034 or more, and where it is below 1000 half a millionth
// isn't reached.
pub fn millionths(v: f64) -> Result<i64, Refusal>
    ensures { answer_of result ≡ millionths_of v }
{
    if v.is_nan() {
        return Err(Refusal::NotShown);
    }
    let b = v.to_bits();
    let t = b % 0x8000_0000_0000_0000;
    let x = t / 0x10_0000_0000_0000;
    if x >= 1034 {
        return Err(Refusal::NotShown);
    }
    if x < 1000 {
        return Ok(0);
    }
    let n = in_millionths(b % 0x10_0000_0000_0000 + 0x10_0000_0000_0000, 1075 - x);
    if b < 0x8000_0000_0000_0000 {
        return Ok(n as i64);
    }
    Ok(-(n as i64))
}
