// A store that keeps the lowest and the highest rank of each cell, and so can hold exactly the sets without a gap.
ghost use Rattle.std.specs.Prelude.{◌≡◌, ℕ, ◌<◌, ◌≤◌, length, map, MatchBool, MatchOption, slice_index};
ghost use Rattle.std.proofs.Common.{arith};
ghost use Rattle.domains.specs.Sets.{Gapless, run};
ghost use Rattle.stores.specs.Bounds.{ByEnds};
ghost use Rattle.domains.proofs.Ranks.{run_pos, run_gapless, in_upto, in_from, in_ones};

use crate::array_store::ArrayStore;
use crate::cell::Cell;
use crate::store::Store;
use domains::domain::Domain;

pub type BoundsStore = ArrayStore<Bounds>;

impl BoundsStore {
    // The lowest and the highest rank of a cell, as they are kept; nothing where there is no such cell.
    #[tactic(auto, using(crate::proofs::Spans::kept_by_ends))]
    pub fn ends(&self, cell: usize) -> Option<(usize, usize)>
        ensures ends { MatchOption result (length (⟦<BoundsStore as Store>⟧.cells self.now) ≤ cell) (λ e. (cell < length (⟦<BoundsStore as Store>⟧.cells self.now)) × (e.0 ≤ e.1) × (e.1 < 48) × (slice_index (⟦<BoundsStore as Store>⟧.cells self.now) cell ≡ run e.0 e.1)) }
        ensures runs { ByEnds self.now.cells (map (λ c. c.low) self.now.kept) (map (λ c. c.high) self.now.kept) (⟦<BoundsStore as Store>⟧.cells self.now) }
    {
        if cell >= self.cells {
            return None;
        }
        let kept = self.kept[cell];
        Some((usize::from(kept.low), usize::from(kept.high)))
    }
}

#[derive(Clone, Copy)]
pub struct Bounds {
    low: u8,
    high: u8,
    ghost ordered: { low ≤ high },
    ghost rank: { high < 48 },
}

impl Bounds {
    // From the lowest rank of a set to its highest.
    fn around(part: Domain) -> Bounds
        ensures { Gapless part.mask → run result.low result.high ≡ part.mask }
    {
        Bounds {
            // ranks are below 48: a `try_from` would only be unwrapped
            low: part.lowest() as u8,
            high: part.highest() as u8,
        }
    }
}

// A set has no gap where it is all from its lowest rank to its highest.
fn is_gapless(part: Domain) -> bool
    ensures { MatchBool result (Gapless part.mask) (Gapless part.mask → ⊥) }
{
    Bounds::around(part).domain() == part
}

impl Cell for Bounds {
    ghost mask = { λ c. run c.low c.high };

    ghost holds = { Gapless };

    ghost laws = { record {
      some = λ c. run_pos c.low c.high c.ordered;
      held = λ c. run_gapless c.low c.high;
      full = λ d h l. λ i j k p q s t. (in_ones d j).1 (omega (arith, (in_ones d k).0 t));
      front = λ m r g p. λ i j k a b s t.
          let u = (in_upto m r k).0 t in (in_upto m r j).1 (g i j k a b ((in_upto m r i).0 s).0 u.0) (omega (arith, u.1));
      rear = λ m r g p. λ i j k a b s t.
          let u = (in_from m r i).0 s in (in_from m r j).1 (g i j k a b u.0 ((in_from m r k).0 t).0) (omega (arith, u.1));
    } };

    fn blank() -> Bounds {
        Bounds { low: 0, high: 0 }
    }

    fn keep(part: Domain) -> Option<Bounds> {
        if !is_gapless(part) {
            return None;
        }
        Some(Bounds::around(part))
    }

    fn domain(self) -> Domain {
        Domain::span(usize::from(self.low), usize::from(self.high)).unwrap()
    }
}
