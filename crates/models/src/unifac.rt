// UNIFAC: A. Fredenslund, R. L. Jones, J. M. Prausnitz, AIChE J. 21 (1975) 1086.
ghost use Rattle.std.specs.Prelude.{◌≡◌, true, ℕ, ◌+◌, ◌*◌, ◌≤◌, ◌<◌, length};
ghost use Rattle.std.specs.Float.Ieee.{neg};
ghost use Rattle.arithmetic.specs.Floats.{◌⊘◌};
ghost use Rattle.arithmetic.specs.Parameters.{td_at, td_by};
ghost use Rattle.arithmetic.specs.Tables.{at, flat, Filled};
ghost use Rattle.models.specs.Limits.{most_components, most_groups};
ghost use Rattle.models.specs.Faults.{index_fault};
ghost use Rattle.models.specs.Exponentials.{group_energy};
ghost use Rattle.models.specs.Answers.{reads};
ghost use Rattle.models.specs.Steps.GroupLists.{held_lists};
ghost use Rattle.models.specs.Unifac.{unifac, unifac_by, unifac_at};
ghost use Rattle.models.specs.Steps.Unifac.{UnifacFits};
ghost use Rattle.models.specs.Steps.Unifac.{psi_by, vector_of, table_of};
ghost use Rattle.models.specs.Values.{five_at, counts_at, group_rs, group_qs, group_as};

mod terms;

use crate::answers::Quantity;
use crate::limits::{PURE, TABLE};
use terms::Mixture;
pub use terms::Shared;

// What Ψ of column k is the exp of: row is the part of the td entries, five each, from its row on; ln is
// log(T).
pub fn argument(row: &[f64], t: f64, ln: f64, k: usize) -> f64
    requires { k * 5 + 5 ≤ length row.now }
    ensures { result ≡ neg (td_by (five_at row.now (k * 5)) t ln) ⊘ t }
{
    let place = k * 5;
    let a = crate::parameters::five_at(row, place);
    -a.value_by(t, ln) / t
}

// Ψ of column k, from the same part.
pub fn psi(row: &[f64], t: f64, ln: f64, k: usize) -> f64
    requires { k * 5 + 5 ≤ length row.now }
    ensures { result ≡ psi_by row.now t ln k }
{
    arithmetic::exp(argument(row, t, ln, k))
}

// Each number v becomes -v/t.
fn over_t(t: f64, out: &mut [f64])
    ensures { Filled (λ k. neg (at out.old k) ⊘ t) (length out.old) out.new }
{
    for v in out {
        *v = -*v / t;
    }
}

// Writes what a row of Ψ is the exp of to the first ng places of out; ln is log(T).
pub fn fill_arguments(row: &[f64], t: f64, ln: f64, ng: usize, out: &mut [f64])
    requires { (ng ≤ most_groups) × (ng * 5 ≤ length row.now) × (ng ≤ length out.old) }
    ensures { Filled (λ k. neg (td_by (five_at row.now (k * 5)) t ln) ⊘ t)
        ng out.new }
{
    crate::parameters::fill_values_by(row, ng, t, ln, out);
    over_t(t, &mut out[..ng]);
}

// Writes Ψ by full rows of ng: every a at T first, then exp(-a/T) of them all at once.
fn fill_table(ng: usize, values: &[f64], t: f64, table: &mut [f64])
    requires { (ng ≤ most_groups)
        × (counts_at ng ≤ length values.now)
        × (ng * ng ≤ length table.old) }
    ensures { Filled
        (flat ng (group_energy (λ m k. td_at (group_as ng values.now m k) t) t))
        (ng * ng) table.new }
{
    let five = ng + ng;
    let count = ng * ng;
    crate::parameters::fill_values(&values[five..], count, t, table);
    over_t(t, &mut table[..count]);
    arithmetic::exp_each(table, count);
}

// The quantity over a table of exponentials and one of pure ln Γ, both by full rows of ng. Of the latter it
// reads the rows of the components that it goes by.
pub fn value_over(
    n: usize,
    ng: usize,
    lens: &[u8],
    groups: &[u8],
    values: &[f64],
    psi: &[f64],
    pure: &[f64],
    x: &[f64],
    q: Quantity,
) -> f64
    requires { UnifacFits n ng lens.now groups.now values.now x.now q
        × (ng * ng ≤ length psi.now)
        × (n * ng ≤ length pure.now) }
    ensures { result ≡ unifac_by n ng (held_lists ng lens groups values)
        (group_rs ng values.now) (group_qs ng values.now)
        (table_of ng psi) (table_of ng pure) (vector_of x) q }
{
    Mixture::of(n, ng, lens, groups, values, psi, x).value(pure, q)
}

// The components from first to below last.
#[derive(Clone, Copy)]
pub struct Span {
    pub first: usize,
    pub last: usize,
}

// Those that a quantity goes by.
fn span_of(n: usize, q: Quantity) -> Span
    requires { (n ≤ most_components) × (index_fault n q ≡ 0) }
    ensures { (result.last ≤ n)
        × ((i : ℕ) → i < n → reads q i ≡ true → (result.first ≤ i) × (i < result.last)) }
{
    match q {
        Quantity::LnGamma(i) | Quantity::Gamma(i) => Span {
            first: i,
            last: i + 1,
        },
        Quantity::ExcessGibbs => Span { first: 0, last: n },
    }
}

// The quantity over a table of exponentials; the pure ln Γ that it goes by are worked out here.
pub fn value_by(
    n: usize,
    ng: usize,
    lens: &[u8],
    groups: &[u8],
    values: &[f64],
    psi: &[f64],
    x: &[f64],
    q: Quantity,
) -> f64
    requires { UnifacFits n ng lens.now groups.now values.now x.now q
        × (ng * ng ≤ length psi.now) }
    ensures { result ≡ unifac n ng (held_lists ng lens groups values)
        (group_rs ng values.now) (group_qs ng values.now)
        (table_of ng psi) (vector_of x) q }
{
    let mixture = Mixture::of(n, ng, lens, groups, values, psi, x);
    let span = span_of(n, q);
    let mut pure = [0.0; PURE];
    mixture.fill_pure(span.first, span.last, &mut pure[..]);
    value_over(n, ng, lens, groups, values, psi, &pure[..], x, q)
}

// The quantity at T, from the values: R's, Q's, a by rows, five each, then the counts, list after list. It
// stays apart from its caller, so that the table of Ψ is on the stack for UNIFAC alone.
#[inline(never)]
pub fn value_at(
    n: usize,
    ng: usize,
    lens: &[u8],
    groups: &[u8],
    values: &[f64],
    t: f64,
    x: &[f64],
    q: Quantity,
) -> f64
    requires { UnifacFits n ng lens.now groups.now values.now x.now q }
    ensures { result ≡ unifac_at n ng (held_lists ng lens groups values)
        (group_rs ng values.now) (group_qs ng values.now)
        (group_as ng values.now) t (vector_of x) q }
{
    let mut table = [0.0; TABLE];
    fill_table(ng, values, t, &mut table[..]);
    value_by(n, ng, lens, groups, values, &table[..], x, q)
}
