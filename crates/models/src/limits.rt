// Document 01's limits.

// The most components, groups, and places of one list.
pub const COMPONENTS: usize = 12;

pub const GROUPS: usize = 32;

pub const LIST: usize = 12;

// The most places of all lists, and values of any model.
pub const PLACES: usize = COMPONENTS * LIST;

pub const VALUES: usize = 5328;

// The places of a table of exponentials of n, or ng, full rows.
pub const PAIRS: usize = COMPONENTS * COMPONENTS;

pub const TABLE: usize = GROUPS * GROUPS;

// The places of a table of pure ln Γ by n rows of ng.
pub const PURE: usize = COMPONENTS * GROUPS;

// The most components that a record can name: it has a byte for them.
pub const NAMED: usize = 255;
