// The four models, and what goes by them.
ghost use Rattle.std.specs.Prelude.{◌≡◌, ◌≤◌, length};
ghost use Rattle.models.specs.Limits.{most_named};
ghost use Rattle.models.specs.Model.{by_model, table_width, has_groups, model_of, model_number, Numbered};
ghost use Rattle.models.specs.Values.{wilson_size, uniquac_size, nrtl_size};

use crate::limits::NAMED;
use std::error::Error;
use std::fmt;

// A model's number is its place here.
#[derive(Clone, Copy, Debug, PartialEq, Eq)]
pub enum Model {
    Wilson = 1,
    Uniquac,
    Nrtl,
    Unifac,
}

// A number that is no model's.
#[derive(Clone, Copy, Debug, PartialEq, Eq)]
pub struct UnknownModel(pub usize);

impl TryFrom<usize> for Model {
    type Error = UnknownModel;

    ghost try_from_gives = { Numbered };

    #[tactic(auto, unfolding(crate::specs::Model::model_of))]
    fn try_from(k: usize) -> Result<Self, UnknownModel> {
        match k {
            1 => Ok(Model::Wilson),
            2 => Ok(Model::Uniquac),
            3 => Ok(Model::Nrtl),
            4 => Ok(Model::Unifac),
            _ => Err(UnknownModel(k)),
        }
    }
}

impl From<Model> for u8 {
    ghost from_gives = { λ m k. k ≡ model_number m };

    fn from(model: Model) -> u8 {
        model as u8
    }
}

impl fmt::Display for UnknownModel {
    fn fmt<W: fmt::Write>(&self, f: &mut fmt::Formatter<W>) -> fmt::Result {
        write!(f, "no model has the number {}", self.0)
    }
}

impl Error for UnknownModel {}

// The model of a number from 1 to 4, a record's or an exported call's; UNIFAC's of any other.
pub fn model_numbered(k: usize) -> Model
    ensures { result ≡ model_of k }
{
    Model::try_from(k).unwrap_or(Model::Unifac)
}

// The same of a head's.
pub fn model_of(k: u8) -> Model
    ensures { result ≡ model_of k }
{
    model_numbered(usize::from(k))
}

// One of four, by the model.
pub fn by_model(model: Model, wilson: usize, uniquac: usize, nrtl: usize, unifac: usize) -> usize
    ensures { result ≡ by_model model wilson uniquac nrtl unifac }
{
    match model {
        Model::Wilson => wilson,
        Model::Uniquac => uniquac,
        Model::Nrtl => nrtl,
        Model::Unifac => unifac,
    }
}

// How many rows and columns its table of exponentials has.
pub fn table_width(model: Model, n: usize, ng: usize) -> usize
    ensures { result ≡ table_width model n ng }
{
    by_model(model, n, n, n, ng)
}

// How many values n components have, in a model without groups. Past 255, which no record names and
// `shape_fault` refuses, it answers 0.
#[tactic(auto, unfolding(crate::specs::Values::wilson_size, crate::specs::Values::uniquac_size, crate::specs::Values::nrtl_size))]
pub fn size_of(model: Model, n: usize) -> usize
    ensures { n ≤ most_named
        → result ≡ by_model model (wilson_size n) (uniquac_size n) (nrtl_size n) 0 }
{
    if NAMED < n {
        return 0;
    }
    let pairs = n * n;
    by_model(model, pairs + n, pairs + n + n, pairs * 5 + pairs, 0)
}

// Whether it has groups, and cells on the diagonal too.
pub fn has_groups(model: Model) -> bool
    ensures { result ≡ has_groups model }
{
    model == Model::Unifac
}
