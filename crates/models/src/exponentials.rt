// The exponentials E_ij = exp(-(a_ij - a_ii)/T) of Wilson and UNIQUAC.
ghost use Rattle.std.specs.Prelude.{◌≡◌, ◌*◌, ◌≤◌, ◌<◌, length};
ghost use Rattle.std.specs.Float.Ieee.{neg};
ghost use Rattle.arithmetic.specs.Floats.{◌⊖◌, ◌⊘◌};
ghost use Rattle.arithmetic.specs.Tables.{at, flat, Filled};
ghost use Rattle.models.specs.Limits.{most_components};
ghost use Rattle.models.specs.Exponentials.{energy};
ghost use Rattle.models.specs.Values.{energies};

use crate::terms;

// What E_ij is the exp of, from the part of the energies that starts at row i.
pub fn argument(row: &[f64], t: f64, i: usize, j: usize) -> f64
    requires { (i < length row.now) × (j < length row.now) }
    ensures { result ≡ neg (at row.now j ⊖ at row.now i) ⊘ t }
{
    -(row[j] - row[i]) / t
}

// E_ij, from the same part.
pub fn energy(row: &[f64], t: f64, i: usize, j: usize) -> f64
    requires { (i < length row.now) × (j < length row.now) }
    ensures { result ≡ energy (λ _. at row.now) t i j }
{
    arithmetic::exp(argument(row, t, i, j))
}

// Writes what E_ij is the exp of for each j below n, through the part of a table that starts at row i. The
// diagonal gets one as well, so that the row runs without a test; it counts in no sum.
pub fn fill_arguments(row: &[f64], t: f64, n: usize, i: usize, out: &mut [f64])
    requires { (n ≤ length row.now) × (n ≤ length out.old) × (i < n) }
    ensures { let a = at row.now in
        Filled (λ j. neg (a j ⊖ a i) ⊘ t) n out.new }
{
    terms::fill(n, |j| argument(row, t, i, j), out);
}

// Writes the table of a model whose values begin with its energies: every argument first, then exp of them
// all at once.
pub fn fill_energies(values: &[f64], t: f64, n: usize, out: &mut [f64])
    requires { (n ≤ most_components)
        × (n * n ≤ length values.now)
        × (n * n ≤ length out.old) }
    ensures { Filled (flat n (energy (energies n values.now) t)) (n * n) out.new }
{
    for i in 0..n {
        let at = i * n;
        fill_arguments(&values[at..], t, n, i, &mut out[at..]);
    }
    arithmetic::exp_each(out, n * n);
}
