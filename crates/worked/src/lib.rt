// Examples worked out by hand, as one table under one theorem. Each layer adds its rows.
#![tactic(auto)]

ghost use Rattle.std.specs.Prelude.{◌≡◌, length};
ghost use Rattle.std.specs.List.{AllByRecursion};
ghost use Rattle.worked.specs.Rows.{Holds};
ghost use Rattle.worked.specs.Table.{table};

// How many rows there are, every one of which holds.
#[tactic(auto, using(crate::proofs::Shown::shown))]
pub fn worked_rows() -> usize
    ensures rows { result ≡ length table }
    ensures hold { AllByRecursion Holds table }
{
    13
}
