// What a host in Rust or C links, all in one static library: the kept mixture, whose slices pass as a pointer
// and a length and whose head goes in and comes back by value; exp, log and millionths; the plain calls and
// the check of a composition; the import of a supplier's list; the run of a strip; the version.
#![tactic(auto)]

pub mod arguments;
pub mod border;
pub mod by_bytes;
pub mod calls;
pub mod functions;
pub mod strips;
pub mod suppliers;
pub mod version;
