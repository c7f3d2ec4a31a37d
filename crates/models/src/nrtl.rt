// NRTL. Document 01, "Models".
ghost use Rattle.std.specs.Prelude.{◌≡◌, ◌+◌, ◌*◌, ◌≤◌, ◌<◌, length};
ghost use Rattle.std.specs.Float.Ieee.{neg};
ghost use Rattle.arithmetic.specs.Exponential.{exp_of};
ghost use Rattle.arithmetic.specs.Parameters.{td_at};
ghost use Rattle.arithmetic.specs.Floats.{◌⊖◌, ◌⊗◌, ◌⊘◌};
ghost use Rattle.arithmetic.specs.Tables.{at, grid, Filled};
ghost use Rattle.models.specs.Limits.{most_components};
ghost use Rattle.models.specs.Faults.{index_fault};
ghost use Rattle.models.specs.Columns.{unit_at, unit_diagonal, column_sum};
ghost use Rattle.models.specs.Nrtl.{tau_at, numerator, ln_gamma, excess, nrtl, nrtl_at};
ghost use Rattle.models.specs.Values.{five_at, nrtl_size, taus, alphas};
ghost use Rattle.models.specs.Steps.Model.{ValueFits};
ghost use Rattle.models.specs.Steps.Columns.{Added};
ghost use Rattle.models.specs.Steps.Nrtl.{NrtlFits, NrtlSums, NrtlZeros};

use crate::answers::Quantity;
use crate::limits::{COMPONENTS, PAIRS};
use crate::{columns, parameters, terms};

// τ at T, by rows of n: the five of entry k stand from place 5·k on.
pub fn fill_taus(n: usize, values: &[f64], t: f64, out: &mut [f64])
    requires { (n ≤ most_components)
        × (nrtl_size n ≤ length values.now)
        × (n * n ≤ length out.old) }
    ensures { Filled (λ k. td_at (five_at values.now (k * 5)) t) (n * n)
        out.new }
{
    parameters::fill_values(values, n * n, t, out);
}

// What G_ij is the exp of, from α_ij and τ_ij at T.
pub fn argument(alpha: f64, tau: f64) -> f64
    ensures { result ≡ neg alpha ⊗ tau }
{
    -alpha * tau
}

// G_ij, from the same two.
pub fn exponential(alpha: f64, tau: f64) -> f64
    ensures { result ≡ exp_of (neg alpha ⊗ tau) }
{
    arithmetic::exp(argument(alpha, tau))
}

// Writes what the first count entries of G are the exp of, those of the diagonal as well, which count in no
// sum.
pub fn fill_arguments(alpha: &[f64], tau: &[f64], count: usize, out: &mut [f64])
    requires { (count ≤ length alpha.now)
        × (count ≤ length tau.now)
        × (count ≤ length out.old) }
    ensures { let α = at alpha.now in
        Filled (λ k. neg (α k) ⊗ at tau.now k) count out.new }
{
    terms::fill(count, |k| argument(alpha[k], tau[k]), out);
}

// Writes the first count entries of G: every argument first, then exp of them all at once.
fn fill_exponentials(count: usize, alpha: &[f64], tau: &[f64], out: &mut [f64])
    requires { (count ≤ length alpha.now)
        × (count ≤ length tau.now)
        × (count ≤ length out.old) }
    ensures { let α = at alpha.now in
        Filled (λ k. exp_of (neg (α k) ⊗ at tau.now k)) count out.new }
{
    fill_arguments(alpha, tau, count, out);
    arithmetic::exp_each(out, count);
}

// Adds x·G_ij·τ_ij to sums[j] for each j below n; g and tau are row i of their tables. At i G is 1 and τ
// is 0.
fn add_terms(n: usize, x: f64, g: &[f64], tau: &[f64], i: usize, sums: &mut [f64])
    requires { (n ≤ length g.now)
        × (n ≤ length tau.now)
        × (i < n)
        × (n ≤ length sums.old) }
    ensures { let G = unit_at i (at g.now) in
        let τ = tau_at i (at tau.now) in
        Added n (λ j. x ⊗ G j ⊗ τ j) sums }
{
    terms::add_with_own(n, |j| x * g[j] * tau[j], i, x * 1.0 * 0.0, sums);
}

// For each j the numerator Σ_m x_m G_mj τ_mj in u and the denominator Σ_m x_m G_mj in d; both have zeros
// at first.
fn column_sums(n: usize, tau: &[f64], g: &[f64], x: &[f64], u: &mut [f64], d: &mut [f64])
    requires { NrtlFits n tau.now g.now x.now × NrtlZeros n u.old d.old }
    ensures { let G = grid n g.now in
        let X = at x.now in
        Filled (numerator n (grid n tau.now) G X) n u.new
        × Filled (column_sum n (unit_diagonal G) X) n d.new }
{
    for i in 0..n {
        let start = i * n;
        add_terms(n, x[i], &g[start..], &tau[start..], i, u);
        columns::add_unit_row(n, x[i], &g[start..], i, d);
    }
}

// τ at T and the exponentials, by rows, and the fractions, of n components.
#[derive(Clone, Copy)]
struct Data<'a> {
    n: usize,
    tau: &'a [f64],
    g: &'a [f64],
    x: &'a [f64],
    ghost fits: { NrtlFits n tau.now g.now x.now },
}

impl<'a> Data<'a> {
    fn value(self, q: Quantity) -> f64
        requires { index_fault self.n q ≡ 0 }
        ensures { let s = self.entry in
            result ≡ nrtl s.n (grid s.n s.tau.now) (grid s.n s.g.now) (at s.x.now) q }
    {
        let mut u = [0.0; COMPONENTS];
        let mut d = [0.0; COMPONENTS];
        column_sums(self.n, self.tau, self.g, self.x, &mut u[..], &mut d[..]);
        let u = &u[..];
        let d = &d[..];
        let shared = Shared { of: self, u, d };
        q.value(self.n, |i| shared.ln_gamma(i), || shared.excess_gibbs())
    }
}

// The same with what all components share: the numerator u and the denominator d of each.
#[derive(Clone, Copy)]
struct Shared<'a> {
    of: Data<'a>,
    u: &'a [f64],
    d: &'a [f64],
    ghost sums: { NrtlSums of.n u.now d.now },
    ghost numerators: { Filled (numerator of.n (grid of.n of.tau.now) (grid of.n of.g.now) (at of.x.now))
        of.n u.now },
    ghost denominators: { Filled (column_sum of.n (unit_diagonal (grid of.n of.g.now)) (at of.x.now))
        of.n d.now },
}

impl<'a> Shared<'a> {
    // The term of j in the second sum of ln γ_i, from G_ij and τ_ij.
    fn term(&self, j: usize, g: f64, tau: f64) -> f64
        requires { j < self.now.of.n }
        ensures { let d = at self.now.d.now j in
            result ≡ at self.now.of.x.now j ⊗ g ⊘ d ⊗ (tau ⊖ at self.now.u.now j ⊘ d) }
    {
        self.of.x[j] * g / self.d[j] * (tau - self.u[j] / self.d[j])
    }

    fn ln_gamma(&self, i: usize) -> f64
        requires { i < self.now.of.n }
        ensures { let s = self.now.of in
            result ≡ ln_gamma s.n (grid s.n s.tau.now) (grid s.n s.g.now) (at s.x.now) i }
    {
        let start = i * self.of.n;
        let g = &self.of.g[start..];
        let tau = &self.of.tau[start..];
        let own = self.term(i, 1.0, 0.0);
        let s = terms::sum_with_own(self.of.n, |j| self.term(j, g[j], tau[j]), i, own);
        self.u[i] / self.d[i] + s
    }

    fn excess_gibbs(&self) -> f64
        ensures { let s = self.now.of in
            result ≡ excess s.n (grid s.n s.tau.now) (grid s.n s.g.now) (at s.x.now) }
    {
        terms::sum_of(self.of.n, |i| self.of.x[i] * self.u[i] / self.d[i])
    }
}

// The value over a table of τ at T and one of exponentials, both by rows of n; what stands on their
// diagonals doesn't count.
pub fn value_over(n: usize, tau: &[f64], g: &[f64], x: &[f64], q: Quantity) -> f64
    requires { NrtlFits n tau.now g.now x.now × (index_fault n q ≡ 0) }
    ensures { result ≡ nrtl n (grid n tau.now) (grid n g.now) (at x.now) q }
{
    Data { n, tau, g, x }.value(q)
}

// The quantity at T, from the values: τ by rows, five each, then α. It stays apart from its caller, so that
// its two tables are on the stack for NRTL alone.
#[inline(never)]
pub fn value_at(n: usize, values: &[f64], t: f64, x: &[f64], q: Quantity) -> f64
    requires { ValueFits n (nrtl_size n) values.now x.now q }
    ensures { let v = values.now in
        result ≡ nrtl_at n (taus n v) (alphas n v) t (at x.now) q }
{
    let mut tau = [0.0; PAIRS];
    fill_taus(n, values, t, &mut tau[..]);
    let at = n * n * 5;
    let mut g = [0.0; PAIRS];
    fill_exponentials(n * n, &values[at..], &tau[..], &mut g[..]);
    value_over(n, &tau[..], &g[..], x, q)
}
