// The terms of UNIFAC's ln γ over a table of Ψ: Θ, ln Γ in the mixture and in the pure components, and their
// sums.
ghost use Rattle.std.specs.Prelude.{◌≡◌, ◌+◌, ◌*◌, ◌<◌, ◌≤◌, length};
ghost use Rattle.arithmetic.specs.Floats.{◌⊖◌, ◌⊗◌, ◌⊘◌, +0, one};
ghost use Rattle.arithmetic.specs.Sums.{sum};
ghost use Rattle.arithmetic.specs.Tables.{at, grid, Filled};
ghost use Rattle.models.specs.Limits.{most_components, most_groups};
ghost use Rattle.models.specs.Unifac.{combinatorial_by};

use crate::answers::Quantity;
use crate::columns;
use crate::groups::{GroupList, GroupLists};
use crate::limits::{COMPONENTS, GROUPS};

// The sum of Θ_m row_m / sum_m: the quotients first, which don't wait for each other, then their fold.
fn row_sum(ng: usize, theta: &[f64], row: &[f64], sums: &[f64]) -> f64
    requires { (ng ≤ length theta.now)
        × (ng ≤ length row.now)
        × (ng ≤ length sums.now)
        × (ng ≤ most_groups) }
    ensures { result ≡ sum ng (λ m. at theta.now m ⊗ at row.now m ⊘ at sums.now m) }
{
    let mut terms = [0.0; GROUPS];
    for m in 0..ng {
        terms[m] = theta[m] * row[m] / sums[m];
    }
    arithmetic::sum(&terms[..ng])
}

// 1 - v + ln v - 5·q·(1 - v/f + ln(v/f))
fn combinatorial(q: f64, v: f64, f: f64) -> f64
    ensures { result ≡ combinatorial_by q v f }
{
    1.0 - v + arithmetic::log(v) - 5.0 * q * (1.0 - v / f + arithmetic::log(v / f))
}

// What the components share: their sizes r and q, and the sums of these over the fractions.
#[derive(Clone, Copy)]
pub struct Shared {
    pub r: [f64; COMPONENTS],
    pub q: [f64; COMPONENTS],
    pub rs: f64,
    pub qs: f64,
}

impl Shared {
    ghost use Rattle.models.specs.Steps.Unifac.{combinatorial_from};

    // The combinatorial term of component i.
    fn combinatorial(&self, i: usize) -> f64
        requires { i < most_components }
        ensures { result ≡ combinatorial_from self.now i }
    {
        combinatorial(self.q[i], self.r[i] / self.rs, self.q[i] / self.qs)
    }
}

// The group lists, the sizes R and Q of each group, Ψ by full rows of ng, and the fractions.
#[derive(Clone, Copy)]
pub struct Mixture<'a> {
    pub lists: GroupLists<'a>,
    pub r: &'a [f64],
    pub q: &'a [f64],
    pub psi: &'a [f64],
    pub x: &'a [f64],
    ghost few_groups: { lists.ng ≤ most_groups },
    ghost rs: { lists.ng ≤ length r.now },
    ghost qs: { lists.ng ≤ length q.now },
    ghost square: { lists.ng * lists.ng ≤ length psi.now },
    ghost fractions: { lists.n ≤ length x.now },
}

impl<'a> Mixture<'a> {
    ghost use Rattle.std.specs.Prelude.{get_or};
    ghost use Rattle.models.specs.Faults.{index_fault};
    ghost use Rattle.models.specs.Columns.{column_sum};
    ghost use Rattle.models.specs.Steps.GroupLists.{Named, ListedRows, Loaded};
    ghost use Rattle.models.specs.Steps.Unifac.{list_of, lists_of, r_of, q_of, psi_of, x_of};
    ghost use Rattle.models.specs.Steps.Unifac.{HasData, Shares, ln_from};
    ghost use Rattle.models.specs.Unifac.{theta, fraction, pure, ln_group, residual, unifac_by};

    // From the values: R's, Q's, a by rows, five each, then the counts, list after list.
    pub fn of(
        n: usize,
        ng: usize,
        lens: &'a [u8],
        groups: &'a [u8],
        values: &'a [f64],
        psi: &'a [f64],
        x: &'a [f64],
    ) -> Mixture<'a>
        requires { Loaded n ng lens.now groups.now values.now
            × (ng * ng ≤ length psi.now)
            × (n ≤ length x.now) }
        ensures { HasData n ng lens.now groups.now values.now psi.now x.now result }
    {
        let place = crate::groups::counts_at(ng);
        let counts = &values[place..];
        let lists = GroupLists {
            n,
            ng,
            lens,
            groups,
            counts,
        };
        Mixture {
            lists,
            r: values,
            q: &values[ng..],
            psi,
            x,
        }
    }

    // Writes Θ of each group from the group fractions.
    fn theta(&self, fractions: &[f64], out: &mut [f64])
        requires { (self.now.lists.ng ≤ length fractions.now) × (self.now.lists.ng ≤ length out.old) }
        ensures { let mix = self.now in let ng = mix.lists.ng in
            Filled (theta ng (q_of mix) (at fractions.now)) ng out.new }
    {
        let ng = self.lists.ng;
        let sum = arithmetic::dot(ng, self.q, fractions);
        for k in 0..ng {
            out[k] = self.q[k] * fractions[k] / sum;
        }
    }

    // The sum of Θ_m Ψ_mk for each k, row after row; sums has zeros at first.
    fn column_sums(&self, theta: &[f64], sums: &mut [f64])
        requires { let ng = self.now.lists.ng in
            (ng ≤ length theta.now) × (ng ≤ length sums.old) × Filled (λ _. +0) ng sums.old }
        ensures { let mix = self.now in let ng = mix.lists.ng in
            Filled (column_sum ng (psi_of mix) (at theta.now)) ng sums.new }
    {
        let ng = self.lists.ng;
        for m in 0..ng {
            let place = m * ng;
            columns::add_row(&self.psi[place..], theta[m], ng, sums);
        }
    }

    // ln Γ of group k from the log of its column sum and all column sums.
    fn group_gamma(&self, k: usize, log: f64, theta: &[f64], sums: &[f64]) -> f64
        requires { (k < self.now.lists.ng)
            × (self.now.lists.ng ≤ length theta.now)
            × (self.now.lists.ng ≤ length sums.now) }
        ensures { let mix = self.now in let ng = mix.lists.ng in
            result ≡ q_of mix k ⊗ (one ⊖ log
            ⊖ sum ng (λ m. at theta.now m ⊗ psi_of mix k m ⊘ at sums.now m)) }
    {
        let ng = self.lists.ng;
        let place = k * ng;
        self.q[k] * (1.0 - log - row_sum(ng, theta, &self.psi[place..], sums))
    }

    // Writes ln Γ of each group; the column sums that every one divides by, and their logs, are worked out once.
    fn gammas(&self, theta: &[f64], out: &mut [f64])
        requires { (self.now.lists.ng ≤ length theta.now) × (self.now.lists.ng ≤ length out.old) }
        ensures { let mix = self.now in let ng = mix.lists.ng in
            Filled (ln_group ng (q_of mix) (psi_of mix) (at theta.now)) ng out.new }
    {
        let ng = self.lists.ng;
        let mut sums = [0.0; GROUPS];
        self.column_sums(theta, &mut sums[..]);
        let mut logs = sums;
        arithmetic::log_each(&mut logs[..], ng);
        for k in 0..ng {
            out[k] = self.group_gamma(k, logs[k], theta, &sums[..]);
        }
    }

    // Writes ln Γ of the groups that a list names, each at its own place.
    fn gammas_of(&self, list: &GroupList, theta: &[f64], out: &mut [f64])
        requires { (list.now.ng ≡ self.now.lists.ng)
            × (self.now.lists.ng ≤ length theta.now)
            × (self.now.lists.ng ≤ length out.old) }
        ensures { let mix = self.now in let ng = mix.lists.ng in
            Named (length list.now.groups.now) (λ p. get_or list.now.groups.now p 0)
            (ln_group ng (q_of mix) (psi_of mix) (at theta.now)) out.new }
    {
        let mut sums = [0.0; GROUPS];
        self.column_sums(theta, &mut sums[..]);
        for g in list.groups {
            let k = usize::from(*g);
            let log = arithmetic::log(sums[k]);
            out[k] = self.group_gamma(k, log, theta, &sums[..]);
        }
    }

    // Writes ln Γ of the groups that a component lists, in the pure component.
    fn pure_gammas(&self, list: &GroupList, out: &mut [f64])
        requires { (list.now.ng ≡ self.now.lists.ng) × (self.now.lists.ng ≤ length out.old) }
        ensures { let mix = self.now in let ng = mix.lists.ng in
            Named (length list.now.groups.now) (λ p. get_or list.now.groups.now p 0)
            (pure ng (list_of list.now) (q_of mix) (psi_of mix) 0) out.new }
    {
        let mut fractions = [0.0; GROUPS];
        list.fractions(&mut fractions[..]);
        let mut theta = [0.0; GROUPS];
        self.theta(&fractions[..], &mut theta[..]);
        self.gammas_of(list, &theta[..], out);
    }

    // Writes, by rows of ng, the pure ln Γ of the groups that each component from first to below last lists.
    pub fn fill_pure(&self, first: usize, last: usize, table: &mut [f64])
        requires { (last ≤ self.now.lists.n) × (last * self.now.lists.ng ≤ length table.old) }
        ensures { let mix = self.now in let ng = mix.lists.ng in
            ListedRows first last ng (lists_of mix.lists)
            (pure ng (lists_of mix.lists) (q_of mix) (psi_of mix)) table.new }
    {
        for i in first..last {
            let list = self.lists.list(i);
            let place = i * self.lists.ng;
            self.pure_gammas(&list, &mut table[place..]);
        }
    }

    fn share(&self) -> Shared
        ensures { let mix = self.now in
            Shares mix.lists.n (lists_of mix.lists) (r_of mix) (q_of mix) (x_of mix) result }
    {
        let r = self.lists.sizes(self.r);
        let q = self.lists.sizes(self.q);
        let rs = arithmetic::dot(self.lists.n, self.x, &r[..]);
        let qs = arithmetic::dot(self.lists.n, self.x, &q[..]);
        Shared { r, q, rs, qs }
    }

    // Writes Θ of each group in the mixture.
    fn theta_mixed(&self, out: &mut [f64])
        requires { self.now.lists.ng ≤ length out.old }
        ensures { let mix = self.now in let ng = mix.lists.ng in
            Filled (theta ng (q_of mix) (fraction mix.lists.n (lists_of mix.lists) (x_of mix))) ng out.new }
    {
        let mut fractions = [0.0; GROUPS];
        self.lists.fractions(self.x, &mut fractions[..]);
        self.theta(&fractions[..], out);
    }

    // ln γ of component i from what the components share, Θ and the table of pure ln Γ.
    fn ln_gamma(&self, shared: &Shared, theta: &[f64], pure: &[f64], i: usize) -> f64
        requires { (i < self.now.lists.n)
            × (self.now.lists.ng ≤ length theta.now)
            × (i * self.now.lists.ng + self.now.lists.ng ≤ length pure.now) }
        ensures { let mix = self.now in let ng = mix.lists.ng in
            result ≡ ln_from shared.now ng (lists_of mix.lists) (q_of mix) (psi_of mix) (at theta.now)
            (grid ng pure.now) i }
    {
        let list = self.lists.list(i);
        let mut gammas = [0.0; GROUPS];
        self.gammas_of(&list, theta, &mut gammas[..]);
        let place = i * self.lists.ng;
        shared.combinatorial(i) + list.residual(&gammas[..], &pure[place..])
    }

    // The excess energy from the same.
    fn excess_gibbs(&self, shared: &Shared, theta: &[f64], pure: &[f64]) -> f64
        requires { (self.now.lists.ng ≤ length theta.now)
            × (self.now.lists.n * self.now.lists.ng ≤ length pure.now) }
        ensures { let mix = self.now in let ng = mix.lists.ng in
            let P = grid ng pure.now in
            result ≡ sum mix.lists.n (λ i. x_of mix i
            ⊗ ln_from shared.now ng (lists_of mix.lists) (q_of mix) (psi_of mix) (at theta.now) P i) }
    {
        let mut gammas = [0.0; GROUPS];
        self.gammas(theta, &mut gammas[..]);
        let mut total = 0.0;
        for (i, list) in self.lists.each() {
            let place = i * self.lists.ng;
            let residual = list.residual(&gammas[..], &pure[place..]);
            total = total + self.x[i] * (shared.combinatorial(i) + residual);
        }
        total
    }

    // The quantity over a table of pure ln Γ, by full rows of ng.
    pub fn value(&self, pure: &[f64], asked: Quantity) -> f64
        requires { (self.now.lists.n * self.now.lists.ng ≤ length pure.now)
            × (index_fault self.now.lists.n asked ≡ 0) }
        ensures { let mix = self.now in let ng = mix.lists.ng in
            result ≡ unifac_by mix.lists.n ng (lists_of mix.lists) (r_of mix) (q_of mix) (psi_of mix)
            (grid ng pure.now) (x_of mix) asked }
    {
        let shared = self.share();
        let mut theta = [0.0; GROUPS];
        self.theta_mixed(&mut theta[..]);
        match asked {
            Quantity::LnGamma(i) => self.ln_gamma(&shared, &theta[..], pure, i),
            Quantity::Gamma(i) => arithmetic::exp(self.ln_gamma(&shared, &theta[..], pure, i)),
            Quantity::ExcessGibbs => self.excess_gibbs(&shared, &theta[..], pure),
        }
    }
}
