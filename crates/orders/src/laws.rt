// The laws of the format.
ghost use Rattle.std.specs.Prelude.{T};
ghost use Rattle.orders.specs.Answers.{AnswerFormat};
ghost use Rattle.orders.specs.Format.{Format};

// Says yes, and its contract carries the laws: a file reads as the orders whose records it is, and as no others, and answer records read back as they were written.
#[tactic(auto, using(crate::proofs::Files::format, crate::proofs::Replies::answer_format))]
pub fn format_stands() -> bool
    ensures { T result × Format × AnswerFormat }
{
    true
}
