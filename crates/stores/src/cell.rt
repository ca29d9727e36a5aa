// What a store keeps for a cell: a set, in the form of one kind.
ghost use Rattle.std.specs.Prelude.{◌≡◌, ℕ, MatchOption};
ghost use Rattle.stores.specs.Kept.{CellLaws};

use domains::domain::Domain;

pub trait Cell: Copy {
    // The mask of the set.
    ghost mask: { Self → ℕ };

    // Which sets the kind can hold.
    ghost holds: { ℕ → Type 0 };

    // What stands where no cell is laid out: rank 0 alone, which every kind can hold.
    fn blank() -> Self
        ensures { mask result ≡ 1 };

    // Keeps a set; none where the kind cannot hold it.
    fn keep(part: Domain) -> Option<Self>
        ensures { MatchOption result (holds part.mask → ⊥) (λ c. holds part.mask × (mask c ≡ part.mask)) };

    fn domain(self) -> Domain
        ensures { result.mask ≡ mask self };

    ghost laws: { CellLaws mask holds };
}
