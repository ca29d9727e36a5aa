// Rules: two rows of cells, when they are fit, what they ask of the cells, and what filtering by one means.
#![tactic(auto)]

pub mod faults;
pub mod filter;
pub mod rows;
pub mod support;
