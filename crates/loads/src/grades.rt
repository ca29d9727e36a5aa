// What a kind of grade is: a type whose values stand in a total order.
ghost use Rattle.std.specs.Prelude.{◌≡◌};
ghost use Rattle.std.specs.declared.cmp.Ordering.{Ordering};
ghost use Rattle.loads.specs.Grades.{Order};

use std::cmp::Ordering;

// A kind of grade. Its meaning is `cmp`, and whoever adds a kind proves that `cmp` is a total order. Not on `Ord`: a type's own order may be another.
pub trait Grade {
    ghost cmp: { Self → Self → Ordering };

    fn compare(&self, other: &Self) -> Ordering
        ensures { result ≡ cmp self.now other.now };

    ghost order: { Order cmp };
}
