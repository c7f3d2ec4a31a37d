// A strip of 32-bit words: records, the calls that they make, and a line for each. Document 01, "Strip and
// program".
#![tactic(auto)]

mod calls;
mod kinds;
mod lists;
mod records;
pub mod run;
mod text;
mod words;

pub use kinds::setting_of;
pub use words::MOST_BYTES;
