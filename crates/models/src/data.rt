// A model's data, and what is asked of them: the fault of a load, the value at T and the plain calls.
ghost use Rattle.std.specs.Prelude.{◌≡◌, ◌≤◌, length, OnOk};
ghost use Rattle.arithmetic.specs.Refusals.{number_of, answer_of};
ghost use Rattle.arithmetic.specs.Tables.{at};
ghost use Rattle.models.specs.Faults.{index_fault, data_fault};
ghost use Rattle.models.specs.Model.{given};
ghost use Rattle.models.specs.Plain.{value_at, plain_call, bare};
ghost use Rattle.models.specs.Steps.Model.{Ready};

use crate::answers::{Answer, Quantity};
use crate::faults::{fractions_fault, shape_fault, unifac_fault};
use crate::model::{Model, has_groups, size_of};
use crate::{nrtl, unifac, uniquac, wilson};
use arithmetic::Refusal;

// What a load or a plain call is given: values in the strip's order, groups list after list. A model without
// groups passes over ng, lens and groups.
#[derive(Clone, Copy, Debug)]
pub struct Data<'a> {
    pub model: Model,
    pub n: usize,
    pub ng: usize,
    pub lens: &'a [u8],
    pub groups: &'a [u8],
    pub values: &'a [f64],
}

impl<'a> Data<'a> {
    // The data of a model without groups.
    pub fn bare(model: Model, n: usize, values: &'a [f64]) -> Self
        ensures { given result ≡ bare model n values.now }
    {
        Data {
            model,
            n,
            ng: 0,
            lens: &[],
            groups: &[],
            values,
        }
    }

    // What a load declines: 2, 3 and 4. It goes into its callers, so that none of them has to put the data
    // together in memory for it.
    #[inline(always)]
    pub fn fault(&self) -> Result<(), Refusal>
        ensures refused { number_of result ≡ data_fault (given self.now) }
        ensures passed { OnOk result (Ready (given self.now)) }
    {
        if has_groups(self.model) {
            return unifac_fault(self.n, self.ng, self.lens, self.groups, self.values);
        }
        shape_fault(self.n, size_of(self.model, self.n), self.values)
    }

    // The quantity at T.
    #[tactic(auto, unfolding(crate::specs::Plain::value_at))]
    pub fn value_at(&self, t: f64, x: &[f64], q: Quantity) -> f64
        requires { Ready (given self.now)
            × (self.now.n ≤ length x.now)
            × (index_fault self.now.n q ≡ 0) }
        ensures { result ≡ value_at (given self.now) t (at x.now) q }
    {
        match self.model {
            Model::Wilson => wilson::value_at(self.n, self.values, t, x, q),
            Model::Uniquac => uniquac::value_at(self.n, self.values, t, x, q),
            Model::Nrtl => nrtl::value_at(self.n, self.values, t, x, q),
            Model::Unifac => {
                unifac::value_at(
                    self.n,
                    self.ng,
                    self.lens,
                    self.groups,
                    self.values,
                    t,
                    x,
                    q,
                )
            }
        }
    }

    // The plain call: 2, 3 and 4, then 14, 5, 6 and 7; else the value.
    pub fn plain(&self, t: f64, tolerance: f64, x: &[f64], q: Quantity) -> Answer
        ensures { answer_of result ≡ plain_call (given self.now) t tolerance x.now q }
    {
        self.fault()?;
        fractions_fault(tolerance, self.n, x, q)?;
        Ok(self.value_at(t, x, q))
    }

    // The source's three calls by name: ln γ of i, γ of i, and the reduced excess Gibbs energy.
    pub fn ln_gamma_at(&self, t: f64, tolerance: f64, x: &[f64], i: usize) -> Answer
        ensures { answer_of result
            ≡ plain_call (given self.now) t tolerance x.now (Quantity.LnGamma i) }
    {
        self.plain(t, tolerance, x, Quantity::LnGamma(i))
    }

    pub fn gamma_at(&self, t: f64, tolerance: f64, x: &[f64], i: usize) -> Answer
        ensures { answer_of result
            ≡ plain_call (given self.now) t tolerance x.now (Quantity.Gamma i) }
    {
        self.plain(t, tolerance, x, Quantity::Gamma(i))
    }

    pub fn reduced_excess_gibbs_at(&self, t: f64, tolerance: f64, x: &[f64]) -> Answer
        ensures { answer_of result
            ≡ plain_call (given self.now) t tolerance x.now Quantity.ExcessGibbs }
    {
        self.plain(t, tolerance, x, Quantity::ExcessGibbs)
    }
}
