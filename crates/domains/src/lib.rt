// Grade sets of cells: sets of ranks that are never empty.
#![tactic(auto)]

pub mod domain;
