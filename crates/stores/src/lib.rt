// Stores: what keeps a grade set for each cell of a sheet.
#![tactic(auto)]

pub mod array_store;
pub mod bit_store;
pub mod bounds_store;
pub mod cell;
pub mod copying;
pub mod faults;
pub mod store;
