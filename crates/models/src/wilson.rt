// Wilson's equation. A table of exponentials stands by full rows of n; what stands on its diagonal doesn't
// count.
ghost use Rattle.std.specs.Prelude.{◌≡◌, ◌*◌, ◌≤◌, ◌<◌, length};
ghost use Rattle.arithmetic.specs.Floats.{◌⊖◌, ◌⊗◌, ◌⊘◌, +0};
ghost use Rattle.arithmetic.specs.Logarithm.{log_of};
ghost use Rattle.arithmetic.specs.Sums.{fold};
ghost use Rattle.arithmetic.specs.Tables.{at, grid, Filled};
ghost use Rattle.models.specs.Limits.{most_components};
ghost use Rattle.models.specs.Faults.{index_fault};
ghost use Rattle.models.specs.Values.{wilson_size, energies, volumes};
ghost use Rattle.models.specs.Wilson.{row_sum, ln_gamma, excess, wilson_at};
ghost use Rattle.models.specs.Wilson.{wilson};
ghost use Rattle.models.specs.Steps.Model.{ValueFits};
ghost use Rattle.models.specs.Steps.Wilson.{WilsonFits};

use crate::answers::Quantity;
use crate::limits::{COMPONENTS, PAIRS};
use crate::terms;

// V, the exponentials by rows and the fractions, of n components.
#[derive(Clone, Copy)]
struct Data<'a> {
    n: usize,
    v: &'a [f64],
    e: &'a [f64],
    x: &'a [f64],
    ghost fits: { WilsonFits n v.now e.now x.now },
}

impl<'a> Data<'a> {
    // Λ_ij off the diagonal.
    fn lambda(&self, i: usize, j: usize) -> f64
        requires { (i < self.now.n) × (j < self.now.n) }
        ensures { let s = self.now in
            result ≡ at s.v.now j ⊘ at s.v.now i ⊗ grid s.n s.e.now i j }
    {
        self.v[j] / self.v[i] * self.e[i * self.n + j]
    }

    // Σ_j x_j Λ_ij.
    fn row_sum(&self, i: usize) -> f64
        requires { i < self.now.n }
        ensures { let s = self.now in
            result ≡ row_sum s.n (at s.v.now) (grid s.n s.e.now) (at s.x.now) i }
    {
        let own = self.x[i] * 1.0;
        terms::sum_with_own(self.n, |j| self.x[j] * self.lambda(i, j), i, own)
    }

    fn value(self, q: Quantity) -> f64
        requires { index_fault self.n q ≡ 0 }
        ensures { let s = self.entry in
            result ≡ wilson s.n (at s.v.now) (grid s.n s.e.now) (at s.x.now) q }
    {
        let mut sums = [0.0; COMPONENTS];
        terms::fill(self.n, |i| self.row_sum(i), &mut sums[..]);
        let shared = Shared {
            of: self,
            sums: &sums,
        };
        q.value(self.n, |i| shared.ln_gamma(i), || shared.excess_gibbs())
    }
}

// The same with what all components share, the sum of each row.
#[derive(Clone, Copy)]
struct Shared<'a> {
    of: Data<'a>,
    sums: &'a [f64; COMPONENTS],
    ghost full: { length sums.now ≡ most_components },
    ghost row_sums: { Filled (row_sum of.n (at of.v.now) (grid of.n of.e.now) (at of.x.now)) of.n sums.now },
}

impl<'a> Shared<'a> {
    fn ln_gamma(&self, i: usize) -> f64
        requires { i < self.now.of.n }
        ensures { let s = self.now.of in
            result ≡ ln_gamma s.n (at s.v.now) (grid s.n s.e.now) (at s.x.now) i }
    {
        let x = self.of.x;
        let own = x[i] * 1.0 / self.sums[i];
        let s = terms::sum_with_own(
            self.of.n,
            |k| x[k] * self.of.lambda(k, i) / self.sums[k],
            i,
            own,
        );
        1.0 - arithmetic::log(self.sums[i]) - s
    }

    // The excess energy, from the logs of all sums at once.
    fn excess_gibbs(&self) -> f64
        ensures { let s = self.now.of in
            result ≡ excess s.n (at s.v.now) (grid s.n s.e.now) (at s.x.now) }
    {
        let mut logs = *self.sums;
        arithmetic::log_each(&mut logs[..], self.of.n);
        (0..self.of.n).fold(0.0, |s, i| s - self.of.x[i] * logs[i])
    }
}

// The quantity over a table of exponentials.
pub fn value_over(n: usize, v: &[f64], e: &[f64], x: &[f64], q: Quantity) -> f64
    requires { WilsonFits n v.now e.now x.now × (index_fault n q ≡ 0) }
    ensures { result ≡ wilson n (at v.now) (grid n e.now) (at x.now) q }
{
    Data { n, v, e, x }.value(q)
}

// The quantity at T, from the values: a by rows, then V.
pub fn value_at(n: usize, values: &[f64], t: f64, x: &[f64], q: Quantity) -> f64
    requires { ValueFits n (wilson_size n) values.now x.now q }
    ensures { let v = values.now in
        result ≡ wilson_at n (volumes n v) (energies n v) t (at x.now) q }
{
    let mut e = [0.0; PAIRS];
    crate::exponentials::fill_energies(values, t, n, &mut e[..]);
    let at = n * n;
    value_over(n, &values[at..], &e[..], x, q)
}
