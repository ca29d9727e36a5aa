// A store that keeps each cell's mask, and so can hold every set.
ghost use Rattle.std.specs.Prelude.{◌≡◌, ℕ};

use crate::array_store::ArrayStore;
use crate::cell::Cell;
use domains::domain::Domain;

pub type BitStore = ArrayStore<Domain>;

impl Cell for Domain {
    ghost mask = { λ c. c.mask };

    ghost holds = { λ _. Unit {0} };

    ghost laws = { record {
      some = λ c. c.some;
      held = λ c. tt;
      full = λ d h l. tt;
      front = λ m r h p. tt;
      rear = λ m r h p. tt;
    } };

    fn blank() -> Domain {
        Domain::full(1).unwrap()
    }

    fn keep(part: Domain) -> Option<Domain> {
        Some(part)
    }

    fn domain(self) -> Domain {
        self
    }
}
