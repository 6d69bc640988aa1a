// Reads an image, and tells the statements of its scopes.
ghost use Rattle.std.specs.Prelude.{◌≤◌};
ghost use Rattle.image.specs.Layout.{GatesAccepted};
ghost use Rattle.image.specs.Reading.{ReadAs, StatementsOf};

use crate::{CONTENTS_WORDS, Image, MOST_GATES, MOST_WORDS, capped_counts, word};
use std::ops::Range;

// The image that some words are, if the contents add up to them.
pub fn read(words: &[u64]) -> Option<Image<'_>>
    ensures { ReadAs words.now result }
{
    let n = words.len() as u64;
    if n < CONTENTS_WORDS {
        return None;
    }
    if MOST_WORDS < n {
        return None;
    }
    if word(words, 0) != n {
        return None;
    }
    let layout = capped_counts(words);
    if layout.words() != n {
        return None;
    }
    if MOST_GATES < layout.gates {
        return None;
    }
    Some(Image { words, layout })
}

impl Image<'_> {
    // The statements of a scope, from the first one's number to below another.
    pub fn statements_of(&self, scope: u64) -> Range<u64>
        requires { GatesAccepted self.now.words.now × (scope ≤ self.now.layout.gates) }
        ensures { StatementsOf self.now.words.now scope result }
    {
        if scope == 0 {
            return 0..self.layout.main_statements;
        }
        let at = self.gate_at(scope - 1);
        let first = self.word(at + 3);
        first..first + self.word(at + 4)
    }
}
