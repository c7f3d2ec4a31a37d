// Td parameters, read off the values.
ghost use Rattle.std.specs.Prelude.{◌≡◌, ◌+◌, ◌*◌, ◌≤◌, length};
ghost use Rattle.arithmetic.specs.Parameters.{td_at, td_by};
ghost use Rattle.arithmetic.specs.Tables.{Filled};
ghost use Rattle.models.specs.Limits.{table_size};
ghost use Rattle.models.specs.Values.{five_at};

use crate::terms;
use arithmetic::TdParam;

// The five from place s on.
pub fn five_at(l: &[f64], s: usize) -> TdParam
    requires { s + 5 ≤ length l.now }
    ensures { result ≡ five_at l.now s }
{
    TdParam {
        a: l[s],
        b: l[s + 1],
        c: l[s + 2],
        d: l[s + 3],
        e: l[s + 4],
    }
}

// The values at T of the first count entries of five, which stand from place 5·k on; ln is log(T).
pub fn fill_values_by(fives: &[f64], count: usize, t: f64, ln: f64, out: &mut [f64])
    requires { (count * 5 ≤ length fives.now)
        × (count ≤ length out.old)
        × (count ≤ table_size) }
    ensures { Filled (λ k. td_by (five_at fives.now (k * 5)) t ln) count
        out.new }
{
    terms::fill(count, |k| five_at(fives, k * 5).value_by(t, ln), out);
}

// The same, with log(T) worked out here.
pub fn fill_values(fives: &[f64], count: usize, t: f64, out: &mut [f64])
    requires { (count * 5 ≤ length fives.now)
        × (count ≤ length out.old)
        × (count ≤ table_size) }
    ensures { Filled (λ k. td_at (five_at fives.now (k * 5)) t) count
        out.new }
{
    fill_values_by(fives, count, t, arithmetic::log(t), out);
}
