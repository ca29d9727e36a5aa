// Filtering by one rule, decided by the marks of two counts.
#![tactic(auto)]

pub mod again;
pub mod bounding;
pub mod by_marks;
pub mod counting;
pub mod cutting;
pub mod marks;
pub mod sides;
