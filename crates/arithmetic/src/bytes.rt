// Words and floats in bytes, the lowest byte first.
ghost use Rattle.std.specs.Prelude.{◌≡◌, ◌+◌, ◌*◌, ◌<◌, ◌≤◌, length, take, from_bits};
ghost use Rattle.std.specs.Float.{binary64};
ghost use Rattle.arithmetic.specs.Bytes.{word_at, float_at, floats_at, bits_of};

// The 32-bit word at a place.
pub fn word_at(s: &[u8], at: usize) -> usize
    requires { at + 4 ≤ length s.now }
    ensures { (result ≡ word_at s.now at) × (result < 4294967296) }
{
    u32::from_le_bytes([s[at], s[at + 1], s[at + 2], s[at + 3]]) as usize
}

// The float of a bit pattern, a NaN's too.
pub fn float_of(b: u64) -> f64
    ensures { result ≡ from_bits binary64 b }
{
    std::num::f64_from_bits_with_nan(b)
}

// The bits of a float, any NaN as one pattern.
pub fn bits_of(v: f64) -> u64
    ensures { result ≡ bits_of v }
{
    std::num::f64_to_bits_with_nan(v)
}

// The float at a place.
pub fn float_at(s: &[u8], at: usize) -> f64
    requires { at + 8 ≤ length s.now }
    ensures { result ≡ float_at s.now at }
{
    let low = word_at(s, at);
    let high = word_at(s, at + 4);
    float_of((low + 4294967296 * high) as u64)
}

// Puts the n floats from a place on at the start of a slice.
pub fn fill_floats(n: usize, s: &[u8], at: usize, a: &mut [f64])
    requires { (n ≤ length a.old) × (at + 8 * n ≤ length s.now) }
    ensures { (n ≡ length (take n a.new))
        × (take n a.new ≡ floats_at s.now at n) }
{
    for (k, v) in a[..n].iter_mut().enumerate() {
        *v = float_at(s, at + 8 * k);
    }
}
