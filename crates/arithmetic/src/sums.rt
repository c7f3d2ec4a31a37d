// Left folds from +0.0 over slices.
ghost use Rattle.std.specs.Prelude.{◌≡◌, ◌≤◌, length};
ghost use Rattle.arithmetic.specs.Floats.{◌⊗◌};
ghost use Rattle.arithmetic.specs.Sums.{total, sum};
ghost use Rattle.arithmetic.specs.Tables.{at};

// The sum of a slice.
pub fn sum(xs: &[f64]) -> f64
    ensures { result ≡ total xs.now }
{
    xs.iter().fold(0.0, |s, x| s + *x)
}

// The sum of x[k]·y[k] over the first n.
pub fn dot(n: usize, x: &[f64], y: &[f64]) -> f64
    requires { (n ≤ length x.now) × (n ≤ length y.now) }
    ensures { result ≡ sum n (λ k. at x.now k ⊗ at y.now k) }
{
    let mut s = 0.0;
    for (a, b) in x[..n].iter().zip(&y[..n]) {
        s = s + *a * *b;
    }
    s
}
