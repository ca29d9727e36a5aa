// The laws of support, which filtering a rule rests on.
ghost use Rattle.std.specs.Prelude.{IsTrue};
ghost use Rattle.rules.specs.Support.{BestDecides, SupportGrows, OncePerRule};

// Says yes, and its contract carries the laws: the best choice decides which ranks are supported, support grows with the
// family, and one pass over a rule is enough.
#[tactic(auto, using(crate::proofs::Laws::best_decides, crate::proofs::Laws::support_grows))]
pub fn support_stands() -> bool
    ensures yes { IsTrue result }
    ensures best { BestDecides }
    ensures grows { SupportGrows }
    ensures once { OncePerRule }
{
    true
}
