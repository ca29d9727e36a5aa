// The lines of a text and the words of a line.
ghost use Rattle.std.specs.Iterator.{YieldsFirstRef, item_count};
ghost use Rattle.load_text.specs.Lines.{CutAt, lines_of, words_of};

const LINE_FEED: u8 = b'\n';

const SPACE: u8 = b' ';

// What stands before the first `byte` and what follows it; none where there is no such byte.
pub(crate) fn cut_at(text: &[u8], byte: u8) -> Option<(&[u8], &[u8])>
    ensures { CutAt byte text.now result }
{
    let at = text.iter().position(|b| *b == byte)?;
    Some((&text[..at], &text[at + 1..]))
}

// The lines of what is left of a text.
#[derive(Drop)]
pub(crate) struct Lines<'a>(pub(crate) &'a [u8]);

impl<'a> Iterator for Lines<'a> {
    type Item = &'a [u8];

    ghost next_gives = { YieldsFirstRef (λ s. lines_of s.0.now) };

    ghost remaining = { item_count (λ s. lines_of s.0.now) };

    fn next(&mut self) -> Option<&'a [u8]> {
        if self.0.is_empty() {
            return None;
        }
        let (line, rest) = cut_at(self.0, LINE_FEED).unwrap_or((self.0, &[]));
        self.0 = rest;
        Some(line)
    }
}

// The words of what is left of a line.
#[derive(Drop)]
pub(crate) struct Words<'a>(pub(crate) &'a [u8]);

impl<'a> Iterator for Words<'a> {
    type Item = &'a [u8];

    ghost next_gives = { YieldsFirstRef (λ s. words_of s.0.now) };

    ghost remaining = { item_count (λ s. words_of s.0.now) };

    fn next(&mut self) -> Option<&'a [u8]> {
        let start = self.0.iter().position(|b| *b != SPACE)?;
        let begun = &self.0[start..];
        let end = begun
            .iter()
            .position(|b| *b == SPACE)
            .unwrap_or(begun.len());
        let (word, rest) = begun.split_at(end);
        self.0 = rest;
        Some(word)
    }
}
