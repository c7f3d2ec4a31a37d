// A temperature-dependent parameter.
ghost use Rattle.std.specs.Prelude.{◌≡◌};
ghost use Rattle.arithmetic.specs.Parameters.{td_at, td_by};

use crate::logarithm::log;

// a + b/T + c·log(T) + d·T + e/(T·T)
#[derive(Clone, Copy)]
pub struct TdParam {
    pub a: f64,
    pub b: f64,
    pub c: f64,
    pub d: f64,
    pub e: f64,
}

impl TdParam {
    // The value at T.
    pub fn value(self, t: f64) -> f64
        ensures { result ≡ td_at self t }
    {
        self.value_by(t, log(t))
    }

    // The same for a caller that has log(T) already.
    pub fn value_by(self, t: f64, ln: f64) -> f64
        ensures { result ≡ td_by self t ln }
    {
        self.a + self.b / t + self.c * ln + self.d * t + self.e / (t * t)
    }
}
