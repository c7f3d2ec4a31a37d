// For the benchmark: a mixture asked again and again in one exported call.
#![tactic(auto)]

pub mod exports;
