// UNIQUAC. A table of exponentials stands by full rows of n; what stands on its diagonal doesn't count.
ghost use Rattle.std.specs.Prelude.{◌≡◌, ◌*◌, ◌≤◌, ◌<◌, length};
ghost use Rattle.arithmetic.specs.Floats.{◌⊖◌, ◌⊗◌, ◌⊘◌, one, half};
ghost use Rattle.arithmetic.specs.Logarithm.{log_of};
ghost use Rattle.arithmetic.specs.Sums.{sum};
ghost use Rattle.arithmetic.specs.Tables.{at, grid, Filled};
ghost use Rattle.models.specs.Limits.{most_components};
ghost use Rattle.models.specs.Faults.{index_fault};
ghost use Rattle.models.specs.Steps.Model.{ValueFits};
ghost use Rattle.models.specs.Steps.Uniquac.{UniquacFits, UniquacShared};
ghost use Rattle.models.specs.Steps.Uniquac.{combinatorial_by, residual_by};
ghost use Rattle.models.specs.Uniquac.{ln_gamma, excess, uniquac, uniquac_at};
ghost use Rattle.models.specs.Uniquac.{Z as coordination, l};
ghost use Rattle.models.specs.Values.{uniquac_size, energies, rs, qs};

use crate::answers::Quantity;
use crate::limits::{COMPONENTS, PAIRS};
use crate::{columns, terms};

// The coordination number.
const Z: f64 = 10.0;

// r, q, the exponentials by rows and the fractions, of n components.
#[derive(Clone, Copy)]
struct Data<'a> {
    n: usize,
    r: &'a [f64],
    q: &'a [f64],
    e: &'a [f64],
    x: &'a [f64],
    ghost fits: { UniquacFits n r.now q.now e.now x.now },
}

impl<'a> Data<'a> {
    fn l(&self, i: usize) -> f64
        requires { i < self.now.n }
        ensures { result ≡ l (at self.now.r.now) (at self.now.q.now) i }
    {
        0.5 * Z * (self.r[i] - self.q[i]) - (self.r[i] - 1.0)
    }

    fn value(self, k: Quantity) -> f64
        requires { index_fault self.n k ≡ 0 }
        ensures { let s = self.entry in
            let E = grid s.n s.e.now in
            result ≡ uniquac s.n (at s.r.now) (at s.q.now) E (at s.x.now) k }
    {
        let rx = arithmetic::dot(self.n, self.x, self.r);
        let qx = arithmetic::dot(self.n, self.x, self.q);
        let lx = terms::sum_of(self.n, |j| self.x[j] * self.l(j));
        let mut theta = [0.0; COMPONENTS];
        terms::fill(self.n, |i| self.x[i] * self.q[i] / qx, &mut theta[..]);
        let mut sums = [0.0; COMPONENTS];
        columns::unit_column_sums(self.n, self.e, &theta[..], &mut sums[..]);
        let shared = Shared {
            of: self,
            rx,
            lx,
            theta: &theta,
            sums: &sums,
        };
        k.value(self.n, |i| shared.ln_gamma(i), || shared.excess_gibbs())
    }
}

// The same with what all components share: Σ_j x_j r_j, Σ_j x_j l_j, θ and Σ_k θ_k τ_kj.
#[derive(Clone, Copy)]
struct Shared<'a> {
    of: Data<'a>,
    rx: f64,
    lx: f64,
    theta: &'a [f64; COMPONENTS],
    sums: &'a [f64; COMPONENTS],
    ghost full: { (length theta.now ≡ most_components) × (length sums.now ≡ most_components) },
    ghost worked: { UniquacShared of.n (at of.r.now) (at of.q.now) (grid of.n of.e.now) (at of.x.now)
        rx lx theta.now sums.now },
}

impl<'a> Shared<'a> {
    fn phi(&self, i: usize) -> f64
        requires { i < self.now.of.n }
        ensures { let s = self.now.of in
            result ≡ at s.x.now i ⊗ at s.r.now i ⊘ self.now.rx }
    {
        self.of.x[i] * self.of.r[i] / self.rx
    }

    // The combinatorial part of ln γ_i, from φ_i/x_i and the logs of φ_i/x_i and θ_i/φ_i.
    fn combinatorial(&self, i: usize, segment: f64, ln_segment: f64, ln_area: f64) -> f64
        requires { i < self.now.of.n }
        ensures { let s = self.now.of in
            result ≡ combinatorial_by (at s.r.now i) (at s.q.now i) segment ln_segment ln_area self.now.lx }
    {
        ln_segment + 0.5 * Z * self.of.q[i] * ln_area + self.of.l(i) - segment * self.lx
    }

    // The residual part of ln γ_i, from the log of the i-th column sum.
    fn residual(&self, i: usize, ln_sum: f64) -> f64
        requires { i < self.now.of.n }
        ensures { let s = self.now.of in
            result ≡ residual_by s.n (at s.q.now i) (grid s.n s.e.now) (at self.now.theta.now)
            (at self.now.sums.now) ln_sum i }
    {
        let start = i * self.of.n;
        let row = &self.of.e[start..];
        let own = self.theta[i] * 1.0 / self.sums[i];
        let term = |j: usize| self.theta[j] * row[j] / self.sums[j];
        let s = terms::sum_with_own(self.of.n, term, i, own);
        self.of.q[i] * (1.0 - ln_sum - s)
    }

    fn ln_gamma(&self, i: usize) -> f64
        requires { i < self.now.of.n }
        ensures { let s = self.now.of in
            result ≡ ln_gamma s.n (at s.r.now) (at s.q.now) (grid s.n s.e.now) (at s.x.now) i }
    {
        let phi = self.phi(i);
        let segment = phi / self.of.x[i];
        let ln_area = arithmetic::log(self.theta[i] / phi);
        let c = self.combinatorial(i, segment, arithmetic::log(segment), ln_area);
        c + self.residual(i, arithmetic::log(self.sums[i]))
    }

    // The excess energy. The logs are worked out side by side.
    fn excess_gibbs(&self) -> f64
        ensures { let s = self.now.of in
            result ≡ excess s.n (at s.r.now) (at s.q.now) (grid s.n s.e.now) (at s.x.now) }
    {
        let n = self.of.n;
        let x = self.of.x;
        let mut phi = [0.0; COMPONENTS];
        terms::fill(n, |i| self.phi(i), &mut phi[..]);
        let mut segments = [0.0; COMPONENTS];
        terms::fill(n, |i| phi[i] / x[i], &mut segments[..]);
        let mut ln_segments = segments;
        arithmetic::log_each(&mut ln_segments[..], n);
        let mut ln_sums = *self.sums;
        arithmetic::log_each(&mut ln_sums[..], n);
        // θ_i/φ_i until their logs are taken
        let mut ln_areas = [0.0; COMPONENTS];
        terms::fill(n, |i| self.theta[i] / phi[i], &mut ln_areas[..]);
        arithmetic::log_each(&mut ln_areas[..], n);
        let ln_gamma = |i: usize| {
            let c = self.combinatorial(i, segments[i], ln_segments[i], ln_areas[i]);
            c + self.residual(i, ln_sums[i])
        };
        terms::sum_of(n, |i| x[i] * ln_gamma(i))
    }
}

// The quantity over a table of exponentials.
pub fn value_over(n: usize, r: &[f64], q: &[f64], e: &[f64], x: &[f64], k: Quantity) -> f64
    requires { UniquacFits n r.now q.now e.now x.now × (index_fault n k ≡ 0) }
    ensures { let E = grid n e.now in
        result ≡ uniquac n (at r.now) (at q.now) E (at x.now) k }
{
    Data { n, r, q, e, x }.value(k)
}

// The quantity at T, from the values: a by rows, then the r's and the q's.
pub fn value_at(n: usize, values: &[f64], t: f64, x: &[f64], k: Quantity) -> f64
    requires { ValueFits n (uniquac_size n) values.now x.now k }
    ensures { let vs = values.now in
        result ≡ uniquac_at n (rs n vs) (qs n vs) (energies n vs) t (at x.now) k }
{
    let mut e = [0.0; PAIRS];
    crate::exponentials::fill_energies(values, t, n, &mut e[..]);
    let at = n * n;
    let qs_at = at + n;
    value_over(n, &values[at..], &values[qs_at..], &e[..], x, k)
}
