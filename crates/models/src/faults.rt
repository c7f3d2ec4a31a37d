// What the plain calls, the check of a composition and a load decline, in document 01's order.
#![tactic(auto, unfolding(arithmetic::specs::Refusals::number, arithmetic::specs::Refusals::number_of, crate::specs::Faults::check_fault, crate::specs::Faults::composition_fault, crate::specs::Faults::mix_fault, crate::specs::Faults::index_fault, crate::specs::Faults::fractions_fault, crate::specs::Faults::shape_fault, crate::specs::Faults::lists_fault, crate::specs::Faults::unifac_fault, crate::specs::Values::unifac_size))]

ghost use Rattle.std.specs.Prelude.{◌≡◌, true, ◌&&◌, ℕ, ◌≤◌, ◌<◌, leb, length, get_or, OnOk};
ghost use Rattle.arithmetic.specs.Refusals.{number_of};
ghost use Rattle.models.specs.Limits.{most_components, most_groups, most_listed};
ghost use Rattle.models.specs.Faults.{usual_tolerance, tolerance_fault, check_fault};
ghost use Rattle.models.specs.Faults.{sum_fault, composition_fault, mix_fault, index_fault};
ghost use Rattle.models.specs.Faults.{fractions_fault};
ghost use Rattle.models.specs.Faults.{between, shape_fault, all_to, lists_fault, groups_fault};
ghost use Rattle.models.specs.Faults.{unifac_fault};
ghost use Rattle.models.specs.Steps.GroupLists.{Sized, Loaded};

use crate::answers::Quantity;
use crate::groups::{counts_at, start_of};
use crate::limits::{COMPONENTS, GROUPS, LIST};
use arithmetic::Refusal;

// How far a sum of fractions may be off 1 in the source, and in a mixture after a load.
pub fn usual_tolerance() -> f64
    ensures { result ≡ usual_tolerance }
{
    1e-6
}

// 14: the tolerance is NaN, below 0 or above 1e-3.
pub fn tolerance_fault(tolerance: f64) -> Result<(), Refusal>
    ensures { number_of result ≡ tolerance_fault tolerance }
{
    if tolerance != tolerance || tolerance < 0.0 || tolerance > 1e-3 {
        return Err(Refusal::Tolerance);
    }
    Ok(())
}

// The check called alone: 14, then 5 and 6.
pub fn check_composition(tolerance: f64, x: &[f64]) -> Result<(), Refusal>
    ensures { number_of result ≡ check_fault tolerance x.now }
{
    tolerance_fault(tolerance)?;
    composition_fault(tolerance, x)
}

// 5, the composition is empty; 6, its sum is off 1. The tolerance is taken as it comes.
pub fn composition_fault(tolerance: f64, x: &[f64]) -> Result<(), Refusal>
    ensures { number_of result ≡ composition_fault tolerance x.now }
{
    if x.is_empty() {
        return Err(Refusal::Empty);
    }
    sum_fault(tolerance, arithmetic::sum(x))
}

// 6 where a sum of fractions is off 1 by more than the tolerance.
pub fn sum_fault(tolerance: f64, total: f64) -> Result<(), Refusal>
    ensures { number_of result ≡ sum_fault tolerance total }
{
    let off = total - 1.0;
    if off > tolerance || off < -tolerance {
        return Err(Refusal::Sum);
    }
    Ok(())
}

// 5 and 6 of the composition; 7, its length is not n. The tolerance is taken as it comes.
pub fn mix_fault(tolerance: f64, n: usize, x: &[f64]) -> Result<(), Refusal>
    ensures refused { number_of result ≡ mix_fault tolerance n x.now }
    ensures passed { OnOk result (length x.now ≡ n) }
{
    composition_fault(tolerance, x)?;
    if x.len() != n {
        return Err(Refusal::Index);
    }
    Ok(())
}

// 7: no component i.
pub fn index_fault(n: usize, q: Quantity) -> Result<(), Refusal>
    ensures { number_of result ≡ index_fault n q }
{
    match q {
        Quantity::LnGamma(i) | Quantity::Gamma(i) => {
            if n <= i {
                return Err(Refusal::Index);
            }
            Ok(())
        }
        Quantity::ExcessGibbs => Ok(()),
    }
}

// 14 of the tolerance; then 5, 6 and 7 of fractions and of what is asked.
pub fn fractions_fault(tolerance: f64, n: usize, x: &[f64], q: Quantity) -> Result<(), Refusal>
    ensures refused { number_of result ≡ fractions_fault tolerance n x.now q }
    ensures passed { OnOk result ((length x.now ≡ n) × (index_fault n q ≡ 0)) }
{
    tolerance_fault(tolerance)?;
    mix_fault(tolerance, n, x)?;
    index_fault(n, q)
}

// 2: n outside 1–12, or values not of the model's size.
pub fn shape_fault(n: usize, size: usize, values: &[f64]) -> Result<(), Refusal>
    ensures refused { number_of result ≡ shape_fault n size values.now }
    ensures passed { OnOk result ((1 ≤ n) × (n ≤ most_components) × (length values.now ≡ size)) }
{
    if !(1..=COMPONENTS).contains(&n) || values.len() != size {
        return Err(Refusal::Shape);
    }
    Ok(())
}

// Whether none of the first n lists is over 12.
pub fn lists_within(lens: &[u8], n: usize) -> bool
    requires { n ≤ length lens.now }
    ensures { result ≡ all_to n (λ i. leb (get_or lens.now i 0) most_listed) }
{
    lens[..n].iter().all(|k| usize::from(*k) <= LIST)
}

// Whether n is within 1–12 and ng within 1–32.
fn in_range(n: usize, ng: usize) -> bool
    ensures { (result ≡ between 1 most_components n && between 1 most_groups ng)
        × (result ≡ true → (1 ≤ n) × (n ≤ most_components) × (1 ≤ ng) × (ng ≤ most_groups)) }
{
    (1..=COMPONENTS).contains(&n) && (1..=GROUPS).contains(&ng)
}

// 2: n outside 1–12, ng outside 1–32, a list over 12, or a slice of the wrong length.
fn lists_fault(
    n: usize,
    ng: usize,
    lens: &[u8],
    groups: &[u8],
    values: &[f64],
) -> Result<(), Refusal>
    ensures refused { number_of result ≡ lists_fault n ng lens.now groups.now values.now }
    ensures passed { OnOk result (Sized n ng lens.now groups.now values.now) }
{
    if !in_range(n, ng) || lens.len() != n || !lists_within(lens, n) {
        return Err(Refusal::Shape);
    }
    let places = start_of(lens, n);
    if groups.len() != places || values.len() != counts_at(ng) + places {
        return Err(Refusal::Shape);
    }
    Ok(())
}

// The first place at fault decides: 3, its group is ng or more; 4, its count is below 0.
fn groups_fault(ng: usize, groups: &[u8], counts: &[f64]) -> Result<(), Refusal>
    requires { length groups.now ≤ length counts.now }
    ensures refused { number_of result ≡ groups_fault ng groups.now counts.now }
    ensures passed { OnOk result
        ((p : ℕ) → p < length groups.now → get_or groups.now p 0 < ng) }
{
    for (group, count) in groups.iter().zip(counts) {
        if ng <= usize::from(*group) {
            return Err(Refusal::Group);
        }
        if *count < 0.0 {
            return Err(Refusal::Count);
        }
    }
    Ok(())
}

// What UNIFAC declines of its lists and values: 2, then 3 or 4 at the first place at fault.
pub fn unifac_fault(
    n: usize,
    ng: usize,
    lens: &[u8],
    groups: &[u8],
    values: &[f64],
) -> Result<(), Refusal>
    ensures refused { number_of result ≡ unifac_fault n ng lens.now groups.now values.now }
    ensures passed { OnOk result (Loaded n ng lens.now groups.now values.now) }
{
    lists_fault(n, ng, lens, groups, values)?;
    let place = counts_at(ng);
    groups_fault(ng, groups, &values[place..])
}
