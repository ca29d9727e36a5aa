// Grades, and loads of graded readings compared from the highest grade down.
#![tactic(auto)]

pub mod grades;
pub mod kinds;
pub mod rank_counts;
pub mod weighing;
