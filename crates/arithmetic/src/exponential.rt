// exp on every f64.
ghost use Rattle.std.specs.Prelude.{◌≡◌, ◌≤◌, not, ◌&&◌, T, length, ℤ, pos, negsuc, int_le, is_nan};
ghost use Rattle.std.specs.Float.{binary64};
ghost use Rattle.std.specs.Float.Ieee.{lt, of_int};
ghost use Rattle.arithmetic.specs.Floats.{two^};
ghost use Rattle.arithmetic.specs.Steps.Nearest.{Easy, nearest};
ghost use Rattle.arithmetic.specs.Tables.{Taken};
ghost use Rattle.arithmetic.specs.Exponential.{exp_of, highest, lowest, exponent, correction, reduced, scaled};

use crate::elementary::{Elementary, each, value};

// P1 to P5.
const P: [f64; 5] = [
    1.66666666666666019037e-01,
    -2.77777777770155933842e-03,
    6.61375632143793436117e-05,
    -1.65339022054652515390e-06,
    4.13813679705723846039e-08,
];

pub const L1: f64 = 6.93147180369123816490e-01;

pub const L2: f64 = 1.90821492927058770002e-10;

// 1/ln 2
const RECIPROCAL: f64 = 1.4426950408889634;

// 1.5·2^52: the floats about it are whole numbers, so that what is added to it is rounded to one.
const SHIFT: f64 = 6755399441055744.0;

// 1/2 - 2^-30
const MARGIN: f64 = 0.49999999906867743;

// 2^-28: where v is no larger, exp of v is 1 + v.
const TINY: f64 = 3.725290298461914e-09;

// The function exp.
struct Exponential;

impl Elementary for Exponential {
    ghost of = { exp_of };

    ghost easy = { Easy };

    // From -500 to 500, and v over ln 2 no closer than 2^-30 to the middle between two whole numbers.
    fn is_easy(v: f64) -> bool {
        let u = RECIPROCAL * v;
        let apart = u - nearest(u);
        v >= -500.0 && v <= 500.0 && apart > -MARGIN && apart < MARGIN
    }

    // There k is the nearest whole number, and 2^k a float.
    fn easy_value(v: f64) -> f64 {
        let n = nearest(RECIPROCAL * v);
        let y = reduced(v, n) * power(i64::from(n as i32));
        if (v >= -TINY) & (v <= TINY) {
            1.0 + v
        } else {
            y
        }
    }

    // Its k is cut toward zero.
    fn careful_value(v: f64) -> f64 {
        if v.is_nan() {
            return v;
        }
        if v > 709.782712893383973096 {
            return f64::INFINITY;
        }
        if v < -745.13321910194110842 {
            return 0.0;
        }
        if (v >= -TINY) & (v <= TINY) {
            return 1.0 + v;
        }
        let k = exponent(v);
        scaled(reduced(v, std::num::nearest_i64_to_f64(k)), k)
    }
}

pub fn exp(v: f64) -> f64
    ensures { result ≡ exp_of v }
{
    value::<Exponential>(v)
}

// Puts exp of each of the first n places there.
pub fn exp_each(a: &mut [f64], n: usize)
    requires { n ≤ length a.old }
    ensures { Taken exp_of n a }
{
    each::<Exponential>(a, n);
}

// The whole number nearest to u.
fn nearest(u: f64) -> f64
    ensures { result ≡ nearest u }
{
    u + SHIFT - SHIFT
}

// k: v over ln 2, moved by a half away from zero, cut toward zero.
fn exponent(v: f64) -> i64
    requires { T (not (is_nan v)) × T (not (lt highest v)) × T (not (lt v lowest)) }
    ensures { result ≡ exponent v }
{
    let h = if v < 0.0 { -0.5 } else { 0.5 };
    std::num::truncating_f64_to_i64(RECIPROCAL * v + h)
}

// y: exp of v - k·ln 2, n being k as a float.
fn reduced(v: f64, n: f64) -> f64
    ensures { (k : ℤ) → n ≡ of_int binary64 k → result ≡ reduced v k }
{
    let hi = v - n * L1;
    let lo = n * L2;
    let r = hi - lo;
    let c = correction(r);
    1.0 + (r * c / (2.0 - c) - lo + hi)
}

// c of r.
fn correction(r: f64) -> f64
    ensures { result ≡ correction r }
{
    let q = r * r;
    r - q * (P[0] + q * (P[1] + q * (P[2] + q * (P[3] + q * P[4]))))
}

// y·2^k.
fn scaled(y: f64, k: i64) -> f64
    requires { T (int_le (negsuc 1499) k && int_le k (pos 1500)) }
    ensures { result ≡ scaled y k }
{
    if k > 1023 {
        return y * power(1023) * power(k - 1023);
    }
    if k < -1022 {
        return y * power(k + 1000) * power(-1000);
    }
    y * power(k)
}

// The float 2^k.
fn power(k: i64) -> f64
    requires { T (int_le (negsuc 1021) k && int_le k (pos 1023)) }
    ensures { result ≡ two^ k }
{
    f64::from_bits(((k + 1023) as u64) << 52)
}
