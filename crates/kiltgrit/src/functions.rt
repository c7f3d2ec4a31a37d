// exp, log, millionths and the check of a composition, for a host in Rust or C.
ghost use Rattle.std.specs.Prelude.{◌≡◌};
ghost use Rattle.arithmetic.specs.Exponential.{exp_of};
ghost use Rattle.arithmetic.specs.Logarithm.{log_of};
ghost use Rattle.arithmetic.specs.Millionths.{millionths_of};
ghost use Rattle.models.specs.Faults.{check_fault};
ghost use Rattle.kiltgrit.specs.Border.{c_shown};

use crate::border::{CShown, c_number};
use arithmetic::millionths::millionths;
use models::faults::check_composition;

#[unsafe(no_mangle)]
pub extern "C" fn kiltgrit_exp(v: f64) -> f64
    ensures { result ≡ exp_of v }
{
    arithmetic::exp(v)
}

#[unsafe(no_mangle)]
pub extern "C" fn kiltgrit_log(v: f64) -> f64
    ensures { result ≡ log_of v }
{
    arithmetic::log(v)
}

#[unsafe(no_mangle)]
pub extern "C" fn kiltgrit_millionths(v: f64) -> CShown
    ensures { result ≡ c_shown (millionths_of v) }
{
    CShown::from(millionths(v))
}

// 14 of the tolerance; then 5 and 6 of the composition.
#[unsafe(no_mangle)]
pub extern "C" fn kiltgrit_check_composition(tolerance: f64, x: &[f64]) -> u32
    ensures { result ≡ check_fault tolerance x.now }
{
    c_number(check_composition(tolerance, x))
}
