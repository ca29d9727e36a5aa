// Trials over any store: try writes, then undo them or keep them.
#![tactic(auto)]

pub mod faults;
pub mod probing;
pub mod rehearsal;
pub mod saved;
pub mod sound_store;
pub mod table;
pub mod trial_store;
