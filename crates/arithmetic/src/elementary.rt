// A function of every f64 that has a way without a branch on some of them.
ghost use Rattle.std.specs.Prelude.{◌≡◌, ◌≤◌, All, Float, IsTrue, length, map};
ghost use Rattle.arithmetic.specs.Tables.{Taken};

pub trait Elementary {
    // The function.
    ghost of: { Float → Float };

    // What holds of an easy argument.
    ghost easy: { Float → Type 0 };

    fn is_easy(v: f64) -> bool
        ensures { IsTrue result → easy v };

    // Of an easy v, without a branch.
    fn easy_value(v: f64) -> f64
        requires { easy v }
        ensures { result ≡ of v };

    // Of any v.
    fn careful_value(v: f64) -> f64
        ensures { result ≡ of v };
}

pub fn value<F: Elementary>(v: f64) -> f64
    ensures { result ≡ F.of v }
{
    if F::is_easy(v) {
        F::easy_value(v)
    } else {
        F::careful_value(v)
    }
}

// Puts the value of each of the first n places there; without a branch where all are easy.
pub fn each<F: Elementary>(a: &mut [f64], n: usize)
    requires { n ≤ length a.old }
    ensures { Taken F.of n a }
{
    let first = &mut a[..n];
    if first.iter().all(|v| F::is_easy(*v)) {
        each_easy::<F>(first);
    } else {
        each_careful::<F>(first);
    }
}

#[tactic(auto, using(crate::proofs::TableLaws::mapped_more))]
fn each_easy<F: Elementary>(a: &mut [f64])
    requires { All F.easy a.old }
    ensures { a.new ≡ map F.of a.old }
{
    for v in a.iter_mut() {
        *v = F::easy_value(*v);
    }
}

#[tactic(auto, using(crate::proofs::TableLaws::mapped_more))]
fn each_careful<F: Elementary>(a: &mut [f64])
    ensures { a.new ≡ map F.of a.old }
{
    for v in a.iter_mut() {
        *v = value::<F>(*v);
    }
}
