// The plain calls by bytes, for the test host: numbers and byte slices, an f64 as eight bytes, lowest
// first. Each answers document 01's number, 0 for none; the value goes to `value`, which a refused
// call leaves as it was.
ghost use Rattle.std.specs.Prelude.{◌≡◌, cond, ◌*◌, ◌%◌, eqb, length, OnOk};
ghost use Rattle.arithmetic.specs.Bytes.{floats};
ghost use Rattle.arithmetic.specs.Refusals.{number_of, answer_of};
ghost use Rattle.arithmetic.specs.Sums.{total};
ghost use Rattle.models.specs.Answers.{first};
ghost use Rattle.models.specs.Faults.{index_fault, fractions_fault};
ghost use Rattle.models.specs.Model.{given as data_given};
ghost use Rattle.kiltgrit.specs.Exports.{plain_rest, exported_by, Gives};

use crate::border::c_refusal;
use arithmetic::{Refusal, bytes};
use models::limits::{COMPONENTS, VALUES};
use models::{Answer, Data, Model, Quantity, faults};

// The sum of the floats in bytes.
fn sum_floats(x: &[u8]) -> f64
    ensures { result ≡ total (floats x.now) }
{
    let mut s = 0.0;
    for k in 0..x.len() / 8 {
        s = s + bytes::float_at(x, 8 * k);
    }
    s
}

// 14 of the tolerance; then 5, 6 and 7 of fractions in bytes.
fn fractions_fault(tolerance: f64, n: usize, x: &[u8], q: Quantity) -> Result<(), Refusal>
    ensures refused { number_of result ≡ first (fractions_fault tolerance n (floats x.now) q)
        (cond (eqb (length x.now % 8) 0) 0 7) }
    ensures passed { OnOk result ((length x.now ≡ 8 * n) × (index_fault n q ≡ 0)) }
{
    faults::tolerance_fault(tolerance)?;
    if x.len() < 8 {
        return Err(Refusal::Empty);
    }
    faults::sum_fault(tolerance, sum_floats(x))?;
    if x.len() / 8 != n {
        return Err(Refusal::Index);
    }
    faults::index_fault(n, q)?;
    if x.len() % 8 != 0 {
        return Err(Refusal::Index);
    }
    Ok(())
}

// The plain call with the fractions in bytes.
fn call_with(given: Data, t: f64, tolerance: f64, x: &[u8], q: Quantity) -> Answer
    ensures { answer_of result ≡ plain_rest (data_given given.entry) t tolerance x.now q }
{
    given.fault()?;
    fractions_fault(tolerance, given.n, x, q)?;
    let mut f = [0.0; COMPONENTS];
    bytes::fill_floats(given.n, x, 0, &mut f);
    Ok(given.value_at(t, &f[..given.n], q))
}

// The same of a model by its number, with the values in bytes.
fn call(
    model: u32,
    n: usize,
    ng: usize,
    lens: &[u8],
    groups: &[u8],
    values: &[u8],
    t: f64,
    tolerance: f64,
    x: &[u8],
    q: Quantity,
) -> Answer
    ensures { answer_of result ≡ exported_by model n ng lens groups values t tolerance x q }
{
    if values.len() % 8 != 0 {
        return Err(Refusal::Shape);
    }
    let Ok(model) = Model::try_from(model as usize) else {
        return Err(Refusal::Shape);
    };
    let count = values.len() / 8;
    if VALUES < count {
        return Err(Refusal::Shape);
    }
    let mut v = [0.0; VALUES];
    bytes::fill_floats(count, values, 0, &mut v);
    let given = Data {
        model,
        n,
        ng,
        lens,
        groups,
        values: &v[..count],
    };
    call_with(given, t, tolerance, x, q)
}

// The answer's number; its value goes to `value`.
fn give(a: Answer, value: &mut f64) -> u32
    ensures { Gives (answer_of a) value result }
{
    match a {
        Ok(v) => {
            *value = v;
            0
        }
        Err(refusal) => c_refusal(refusal),
    }
}

#[unsafe(no_mangle)]
pub extern "C" fn kiltgrit_ln_gamma(
    model: u32,
    n: usize,
    ng: usize,
    lens: &[u8],
    groups: &[u8],
    values: &[u8],
    t: f64,
    tolerance: f64,
    x: &[u8],
    i: usize,
    value: &mut f64,
) -> u32
    ensures { Gives
        (exported_by model n ng lens groups values t tolerance x (Quantity.LnGamma i)) value result }
{
    give(
        call(
            model,
            n,
            ng,
            lens,
            groups,
            values,
            t,
            tolerance,
            x,
            Quantity::LnGamma(i),
        ),
        value,
    )
}

#[unsafe(no_mangle)]
pub extern "C" fn kiltgrit_gamma(
    model: u32,
    n: usize,
    ng: usize,
    lens: &[u8],
    groups: &[u8],
    values: &[u8],
    t: f64,
    tolerance: f64,
    x: &[u8],
    i: usize,
    value: &mut f64,
) -> u32
    ensures { Gives
        (exported_by model n ng lens groups values t tolerance x (Quantity.Gamma i)) value result }
{
    give(
        call(
            model,
            n,
            ng,
            lens,
            groups,
            values,
            t,
            tolerance,
            x,
            Quantity::Gamma(i),
        ),
        value,
    )
}

#[unsafe(no_mangle)]
pub extern "C" fn kiltgrit_excess_gibbs(
    model: u32,
    n: usize,
    ng: usize,
    lens: &[u8],
    groups: &[u8],
    values: &[u8],
    t: f64,
    tolerance: f64,
    x: &[u8],
    value: &mut f64,
) -> u32
    ensures { Gives
        (exported_by model n ng lens groups values t tolerance x Quantity.ExcessGibbs) value result }
{
    give(
        call(
            model,
            n,
            ng,
            lens,
            groups,
            values,
            t,
            tolerance,
            x,
            Quantity::ExcessGibbs,
        ),
        value,
    )
}
