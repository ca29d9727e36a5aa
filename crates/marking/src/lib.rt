// The marks of two counts of ranks: what decides how a rule filters.
#![tactic(auto)]

pub mod bounds;
pub mod counts;
pub mod deciding;
pub mod marks;
pub mod scan;
