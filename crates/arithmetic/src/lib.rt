// f64 arithmetic for the layers above: exp, log, the temperature-dependent parameter, left folds, floats in
// bytes (document 01, "Arithmetic"), an f64 in millionths and a decimal field as an f64 (document 02, Changes
// 1 and 2); and copies of slices.
#![tactic(auto)]

pub mod bytes;
pub mod decimals;
mod elementary;
pub mod exponential;
pub mod logarithm;
pub mod millionths;
pub mod parameters;
pub mod refusal;
pub mod slices;
pub mod sums;

pub use exponential::{exp, exp_each};
pub use logarithm::{log, log_each};
pub use parameters::TdParam;
pub use refusal::Refusal;
pub use sums::{dot, sum};
