// Order files in words, for whoever reads them out to a caller.
#![tactic(auto)]

pub mod listing;
mod words;
