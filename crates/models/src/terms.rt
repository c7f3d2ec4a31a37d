// Terms by their index: sums of them, slices that they fill, and sums that they are added to.
ghost use Rattle.std.specs.Prelude.{◌≡◌, ◌≤◌, ◌<◌, length};
ghost use Rattle.arithmetic.specs.Sums.{sum};
ghost use Rattle.arithmetic.specs.Tables.{Vector, Filled};
ghost use Rattle.models.specs.Limits.{most_components};
ghost use Rattle.models.specs.Steps.Columns.{Added};
ghost use Rattle.models.specs.Steps.Terms.{CalledBelow, GivesBelow, with_own};

use crate::limits::COMPONENTS;

// The sum of the terms below n.
pub(crate) fn sum_of<F: Fn(usize) -> f64>(n: usize, term: F) -> f64
    requires { CalledBelow n (F.pre term) }
    ensures { (t : Vector) → GivesBelow n (F.post term) t → result ≡ sum n t }
{
    let mut s = 0.0;
    for k in 0..n {
        s = s + term(k);
    }
    s
}

// The same with own for term i. The terms run without a test for i, then its own is put right.
pub(crate) fn sum_with_own<F: Fn(usize) -> f64>(n: usize, term: F, i: usize, own: f64) -> f64
    requires calls { CalledBelow n (F.pre term) }
    requires few { n ≤ most_components }
    requires place { i < n }
    ensures { (t : Vector) → GivesBelow n (F.post term) t → result ≡ sum n (with_own i own t) }
{
    let mut terms = [0.0; COMPONENTS];
    fill(n, term, &mut terms[..]);
    terms[i] = own;
    arithmetic::sum(&terms[..n])
}

// Writes the terms below n to their places.
pub(crate) fn fill<F: Fn(usize) -> f64>(n: usize, term: F, out: &mut [f64])
    requires calls { CalledBelow n (F.pre term) }
    requires room { n ≤ length out.old }
    ensures { (t : Vector) → GivesBelow n (F.post term) t → Filled t n out.new }
{
    for (k, v) in out[..n].iter_mut().enumerate() {
        *v = term(k);
    }
}

// Adds each of the terms below n to its place.
pub(crate) fn add<F: Fn(usize) -> f64>(n: usize, term: F, sums: &mut [f64])
    requires calls { CalledBelow n (F.pre term) }
    requires room { n ≤ length sums.old }
    ensures { (t : Vector) → GivesBelow n (F.post term) t → Added n t sums }
{
    for (k, s) in sums[..n].iter_mut().enumerate() {
        *s = *s + term(k);
    }
}

// The same with own for term i. The terms run without a test for i, then its place is put right.
pub(crate) fn add_with_own<F: Fn(usize) -> f64>(
    n: usize,
    term: F,
    i: usize,
    own: f64,
    sums: &mut [f64],
)
    requires calls { CalledBelow n (F.pre term) }
    requires place { i < n }
    requires room { n ≤ length sums.old }
    ensures { (t : Vector) → GivesBelow n (F.post term) t → Added n (with_own i own t) sums }
{
    let put = sums[i] + own;
    add(n, term, sums);
    sums[i] = put;
}
