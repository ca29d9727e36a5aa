// Two loads written as text: read into grades, and what is answered put into words.
#![tactic(auto)]

pub mod entries;
pub mod faults;
mod lines;
mod numbers;
pub mod reading;
pub mod words;
