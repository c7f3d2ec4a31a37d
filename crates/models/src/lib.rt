// Four activity-coefficient models: Wilson, UNIQUAC, NRTL and UNIFAC (document 01, "Models"); and for two of
// them a supplier's list of energies (document 02, Change 2).
#![tactic(auto)]

pub mod answers;
pub mod columns;
pub mod data;
pub mod exponentials;
pub mod faults;
pub mod groups;
pub mod limits;
pub mod model;
pub mod nrtl;
pub mod parameters;
pub mod suppliers;
mod terms;
pub mod unifac;
pub mod uniquac;
pub mod wilson;

pub use answers::{Answer, Quantity};
pub use arithmetic::Refusal;
pub use data::Data;
pub use model::Model;
