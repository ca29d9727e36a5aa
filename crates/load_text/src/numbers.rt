// Decimal numbers of a text.
ghost use Rattle.std.specs.Prelude.{Ok, Err, IsUtf8, MatchOption};

use std::str::FromStr;

// What a word is parsed as; none where it is no text, or parses as nothing.
pub(crate) fn number<T: FromStr>(word: &[u8]) -> Option<T>
where
    T::Err: Drop,
    ensures { MatchOption result (IsUtf8 word.now → (e : T.Err) × T.from_str_gives word.now (Err e)) (λ n. T.from_str_gives word.now (Ok n)) }
{
    std::str::from_utf8(word).ok()?.parse::<T>().ok()
}
