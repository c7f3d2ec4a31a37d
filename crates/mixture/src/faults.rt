// What the calls decline, in document 01's order.
#![tactic(auto, unfolding(arithmetic::specs::Refusals::number_of, arithmetic::specs::Refusals::number))]

ghost use Rattle.std.specs.Prelude.{◌≡◌, ◌&&◌, cond, ◌≤◌, leb, ltb, length, get_or};
ghost use Rattle.std.specs.Float.Ieee.{lt};
ghost use Rattle.arithmetic.specs.Floats.{+0};
ghost use Rattle.arithmetic.specs.Refusals.{number_of};
ghost use Rattle.models.specs.Limits.{most_components, most_groups, most_listed};
ghost use Rattle.models.specs.Faults.{between, all_to};
ghost use Rattle.models.specs.Model.{by_model};
ghost use Rattle.models.specs.Values.{start};
ghost use Rattle.mixture.specs.Holdings.{held};
ghost use Rattle.mixture.specs.Memory.{Memory, OfLengths, memory, short};
ghost use Rattle.mixture.specs.Layout.{data_in};
ghost use Rattle.mixture.specs.Faults.{below, case_fault, in_range, head_fault};
ghost use Rattle.mixture.specs.Faults.{setting_fault, fractions_fault, ready_fault, query_fault};

use crate::head::Head;
use crate::setting::Setting;
use arithmetic::Refusal;
use models::limits::{COMPONENTS, GROUPS, PLACES, TABLE};
use models::model::{by_model, model_of, table_width};
use models::{Model, Quantity};

// The least lengths of the three lent slices.
pub const VALUES: usize = models::limits::VALUES;

pub const CELLS: usize = TABLE;

pub const MARKS: usize = TABLE;

// How long the three lent slices are. They are lent apart, since each call writes others of them.
#[derive(Clone, Copy)]
pub struct Lengths {
    pub values: usize,
    pub cells: usize,
    pub marks: usize,
}

impl Lengths {
    // Of three slices.
    pub fn of(values: &[f64], cells: &[f64], marks: &[u8]) -> Lengths
        ensures { OfLengths result.values result.cells result.marks
            (memory values.now cells.now marks.now) }
    {
        Lengths {
            values: values.len(),
            cells: cells.len(),
            marks: marks.len(),
        }
    }
}

// 1: a lent slice is short.
#[tactic(auto, unfolding(arithmetic::specs::Refusals::number_of, arithmetic::specs::Refusals::number, crate::specs::Memory::short))]
pub fn memory_fault(lent: Lengths) -> Result<(), Refusal>
    ensures { number_of result ≡ cond (short lent.values lent.cells lent.marks) 1 0 }
{
    if lent.values < VALUES || lent.cells < CELLS || lent.marks < MARKS {
        return Err(Refusal::Memory);
    }
    Ok(())
}

// Whether the first groups, as many as there are places, are below ng.
fn groups_below(groups: &[u8], places: usize, ng: usize) -> bool
    requires { places ≤ length groups.now }
    ensures { result ≡ all_to places (λ p. ltb (get_or groups.now p 0) ng) }
{
    groups[..places].iter().all(|group| (*group as usize) < ng)
}

// Whether ng, the lengths of n lists and their groups are in range.
fn lists_in_range(n: usize, ng: usize, lens: [u8; COMPONENTS], groups: [u8; PLACES]) -> bool
    requires { n ≤ most_components }
    ensures { result ≡ (between 1 most_groups ng
        && all_to n (λ i. leb (get_or lens i 0) most_listed)
        && all_to (start lens n) (λ p. ltb (get_or groups p 0) ng)) }
{
    if ng < 1 || GROUPS < ng || !models::faults::lists_within(&lens[..], n) {
        return false;
    }
    let places = models::groups::start_of(&lens[..], n);
    groups_below(&groups[..], places, ng)
}

// Whether what the head's model uses is in range; the lent values don't count.
fn in_range(head: Head) -> bool
    ensures { (m : Memory) → result ≡ in_range (data_in m head) }
{
    let n = head.n;
    if n < 1 || COMPONENTS < n {
        return false;
    }
    match model_of(head.model) {
        Model::Wilson | Model::Uniquac | Model::Nrtl => true,
        Model::Unifac => lists_in_range(n, head.ng, head.lens, head.groups),
    }
}

// 1: a lent slice is short or the head is out of range. 8: no model. Memory counts by its lengths alone.
pub fn head_fault(lent: Lengths, head: Head) -> Result<(), Refusal>
    ensures { (m : Memory) → OfLengths lent.values lent.cells lent.marks m
        → number_of result ≡ head_fault m head }
{
    memory_fault(lent)?;
    if head.model == 0 {
        return Err(Refusal::NoModel);
    }
    let known = Model::try_from(usize::from(head.model)).is_ok();
    if known && in_range(head) {
        return Ok(());
    }
    Err(Refusal::Memory)
}

// 10: i isn't below m or j isn't below n.
fn pair_fault(i: usize, m: usize, j: usize, n: usize) -> Result<(), Refusal>
    ensures { number_of result ≡ cond (below i m j n) 0 10 }
{
    if i < m && j < n {
        return Ok(());
    }
    Err(Refusal::NoSuchCase)
}

// 10: i isn't below k, or j isn't within the list of i. 4: the count is below 0.
fn count_fault(lens: &[u8], k: usize, i: usize, j: usize, v: f64) -> Result<(), Refusal>
    requires { k ≤ length lens.now }
    ensures { number_of result
        ≡ cond (below i k j (get_or lens.now i 0)) (cond (lt v +0) 4 0) 10 }
{
    if i < k && j < lens[i] as usize {
        if v < 0.0 {
            return Err(Refusal::Count);
        }
        return Ok(());
    }
    Err(Refusal::NoSuchCase)
}

// 4 and 10 of a count, for a head whose n is in range.
fn list_fault(
    n: usize,
    lens: [u8; COMPONENTS],
    model: Model,
    i: usize,
    j: usize,
    v: f64,
) -> Result<(), Refusal>
    requires { n ≤ most_components }
    ensures { number_of result
        ≡ cond (below i (by_model model 0 0 0 n) j (get_or lens i 0)) (cond (lt v +0) 4 0) 10 }
{
    let k = by_model(model, 0, 0, 0, n);
    count_fault(&lens[..], k, i, j, v)
}

// 10: no such case or index for this model. 4: a count is below 0. 14: a tolerance is out of range. The lent
// values don't count.
fn case_fault(head: Head, s: Setting) -> Result<(), Refusal>
    requires { head.n ≤ most_components }
    ensures { (m : Memory) → number_of result ≡ case_fault (held (data_in m head)) s }
{
    let model = model_of(head.model);
    let w = table_width(model, head.n, head.ng);
    match s {
        Setting::Temperature(_) => Ok(()),
        Setting::Entry(i, j, _) => {
            let k = by_model(model, w, w, w, 0);
            pair_fault(i, k, j, k)
        }
        Setting::TdEntry(i, j, _) => {
            let k = by_model(model, 0, 0, w, w);
            pair_fault(i, k, j, k)
        }
        Setting::Size(i, which, _) => {
            let k = by_model(model, 1, 2, 0, 2);
            pair_fault(i, w, which, k)
        }
        Setting::Count(i, j, v) => list_fault(head.n, head.lens, model, i, j, v),
        Setting::Tolerance(e) => models::faults::tolerance_fault(e),
    }
}

// What a setting is declined for. Memory counts by its lengths alone.
pub fn setting_fault(lent: Lengths, head: Head, s: Setting) -> Result<(), Refusal>
    ensures { (m : Memory) → OfLengths lent.values lent.cells lent.marks m
        → number_of result ≡ setting_fault m head s }
{
    head_fault(lent, head)?;
    case_fault(head, s)
}

// What fractions are declined for. Memory counts by its lengths alone.
pub fn fractions_fault(lent: Lengths, head: Head, x: &[f64]) -> Result<(), Refusal>
    ensures { (m : Memory) → OfLengths lent.values lent.cells lent.marks m
        → number_of result ≡ fractions_fault m head x.now }
{
    head_fault(lent, head)?;
    models::faults::mix_fault(head.tolerance, head.n, x)
}

// Whether a model, T and fractions are there: 1 and 8; 9, T unset; 9, fractions unset. Memory counts by its
// lengths alone.
pub fn ready_fault(lent: Lengths, head: Head) -> Result<(), Refusal>
    ensures { (m : Memory) → OfLengths lent.values lent.cells lent.marks m
        → number_of result ≡ ready_fault m head }
{
    head_fault(lent, head)?;
    if head.has_t && head.has_x {
        return Ok(());
    }
    Err(Refusal::Unset)
}

// What a query is declined for; 7 comes last, no component i. Memory counts by its lengths alone.
pub fn query_fault(lent: Lengths, head: Head, q: Quantity) -> Result<(), Refusal>
    ensures { (m : Memory) → OfLengths lent.values lent.cells lent.marks m
        → number_of result ≡ query_fault m head q }
{
    ready_fault(lent, head)?;
    models::faults::index_fault(head.n, q)
}
