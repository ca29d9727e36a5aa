// Entries of a load: each kind of grade has its way to be written.
ghost use Rattle.std.specs.Prelude.{◌≡◌, ℕ, List, IfOk, string_bytes, MatchOption};
ghost use Rattle.load_text.specs.Entries.{WritesPoints, WritesHand};
ghost use Rattle.loads.specs.Spelling.{spell_points, spell_hand};
ghost use Rattle.std.proofs.Common.{rules};

use crate::lines::cut_at;
use crate::numbers::number;
use loads::kinds::{Hand, Points};
use std::alloc::{AllocError, Global};

// A kind of grade that words write: `writes` is which words write which grade, and no word writes two; `spelt` is the word
// that we write for a grade. Not on `Display`: a type may print in other words.
pub trait Entry: Sized {
    ghost writes: { List ℕ → Self → Type 0 };

    ghost spelt: { Self → List ℕ };

    fn parse(word: &[u8]) -> Option<Self>
        ensures { MatchOption result ((g : Self) → writes word.now g → ⊥) (λ g. writes word.now g) };

    fn spell(&self, heap: Global) -> Result<String, AllocError>
        ensures { IfOk result (λ s. string_bytes s ≡ spelt self.now) };

    ghost one: { (word : List ℕ) (g h : Self) → writes word g → writes word h → g ≡ h };
}

impl Entry for Points {
    ghost writes = { WritesPoints };

    ghost spelt = { spell_points };

    ghost one = { Prim.search rules };

    fn parse(word: &[u8]) -> Option<Points> {
        let score = number::<i32>(word)?;
        Some(Points { score })
    }

    fn spell(&self, heap: Global) -> Result<String, AllocError> {
        Points::to_string(self, heap)
    }
}

const STROKE: u8 = b'/';

impl Entry for Hand {
    ghost writes = { WritesHand };

    ghost spelt = { spell_hand };

    ghost one = { Prim.search rules };

    fn parse(word: &[u8]) -> Option<Hand> {
        let (front, back) = cut_at(word, STROKE)?;
        let class = number::<u8>(front)?;
        let year = number::<u16>(back)?;
        Some(Hand { class, year })
    }

    fn spell(&self, heap: Global) -> Result<String, AllocError> {
        Hand::to_string(self, heap)
    }
}
