// A mixture that keeps its exponentials in lent memory. Document 01, "Mixture".
#![tactic(auto)]

pub mod answers;
pub mod faults;
pub mod fractions;
pub mod head;
pub mod inputs;
pub mod load;
pub mod open;
pub mod query;
pub mod refill;
pub mod set;
pub mod setting;
pub mod stale;

pub use answers::{Answer, Outcome, Reply};
pub use arithmetic::Refusal;
pub use head::Head;
pub use models::Model;
pub use setting::Setting;
