// The law of filtering again.
ghost use Rattle.std.specs.Prelude.{IsTrue};
ghost use Rattle.filtering.specs.Again.{NothingAgain};

// Says yes, and its contract carries the law: filtering by a rule right after filtering by it takes nothing, and leaves the cells
// as they are.
pub fn once_is_enough() -> bool
    ensures yes { IsTrue result }
    ensures once { NothingAgain }
{
    true
}
