// log on every f64.
ghost use Rattle.std.specs.Prelude.{◌≡◌, ◌^◌, ◌<◌, ◌≤◌, length, pos, if◌then◌else◌, nat_lt};
ghost use Rattle.arithmetic.specs.Tables.{Taken};
ghost use Rattle.arithmetic.specs.Logarithm.{log_of, log_by, remainder};
ghost use Rattle.arithmetic.specs.Steps.Digits.{from_digits, Normal};

use crate::elementary::{Elementary, each, value};
use crate::exponential::{L1, L2};

// G1 to G7.
const G: [f64; 7] = [
    6.666666666666735130e-01,
    3.999999999940941908e-01,
    2.857142874366239149e-01,
    2.222219843214978396e-01,
    1.818357216161805012e-01,
    1.531383769920937332e-01,
    1.479819860511658591e-01,
];

// The function log.
struct Logarithm;

impl Elementary for Logarithm {
    ghost of = { log_of };

    ghost easy = { Normal };

    // Positive and finite, and not subnormal.
    fn is_easy(v: f64) -> bool {
        v > 0.0 && v < f64::INFINITY && v.to_bits() >> 52 != 0
    }

    fn easy_value(v: f64) -> f64 {
        let b = v.to_bits();
        let y = from_digits(
            b % 0x10_0000_0000_0000 + 0x10_0000_0000_0000,
            (b >> 52) + 52,
        );
        if v == 1.0 { 0.0 } else { y }
    }

    fn careful_value(v: f64) -> f64 {
        if v.is_nan() {
            return v;
        }
        if v < 0.0 {
            return f64::NAN;
        }
        if v == 0.0 {
            return f64::NEG_INFINITY;
        }
        if v == f64::INFINITY {
            return v;
        }
        if v == 1.0 {
            return 0.0;
        }
        let b = v.to_bits();
        if b >> 52 != 0 {
            return Logarithm::easy_value(v);
        }
        // a subnormal: its digits are moved up until the highest is the 53rd
        let z = u64::from(b.leading_zeros());
        from_digits(b << (z - 11), 64 - z)
    }
}

pub fn log(v: f64) -> f64
    ensures { result ≡ log_of v }
{
    value::<Logarithm>(v)
}

// Puts log of each of the first n places there.
pub fn log_each(a: &mut [f64], n: usize)
    requires { n ≤ length a.old }
    ensures { Taken log_of n a }
{
    each::<Logarithm>(a, n);
}

// log of q·2^-53·2^(x - 1074), q being the number's 53 digits, of which the highest is 1.
fn from_digits(q: u64, x: u64) -> f64
    requires { (2 ^ 52 ≤ q) × (q < 2 ^ 53) × (x < 4096) }
    ensures { result ≡ from_digits q x }
{
    log_by(f64::from_bits(q + bias(q)), (x as i32) - shortfall(q))
}

// The exponent's field over the digits q: that of 1 where they are below M's, else that of 1/2, less the
// digit that q has.
fn bias(q: u64) -> u64
    ensures { result
        ≡ (if nat_lt q 0x16_a09e_0000_0000 then 0x3fe0_0000_0000_0000 else 0x3fd0_0000_0000_0000) }
{
    if q < 0x16_a09e_0000_0000 {
        0x3fe0_0000_0000_0000
    } else {
        0x3fd0_0000_0000_0000
    }
}

// What k falls short of x by.
fn shortfall(q: u64) -> i32
    ensures { result ≡ (if nat_lt q 0x16_a09e_0000_0000 then pos 1075 else pos 1074) }
{
    if q < 0x16_a09e_0000_0000 { 1075 } else { 1074 }
}

// log of m·2^k, for an m near 1.
fn log_by(m: f64, k: i32) -> f64
    ensures { result ≡ log_by m k }
{
    let f = m - 1.0;
    let p = 0.5 * f * f;
    let s = f / (2.0 + f);
    let r = remainder(s);
    let n = k as f64;
    s * (p + r) + n * L2 - p + f + n * L1
}

// R of s.
fn remainder(s: f64) -> f64
    ensures { result ≡ remainder s }
{
    let z = s * s;
    let w = z * z;
    let t1 = w * (G[1] + w * (G[3] + w * G[5]));
    let t2 = z * (G[0] + w * (G[2] + w * (G[4] + w * G[6])));
    t2 + t1
}
