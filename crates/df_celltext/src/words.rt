//! The words of a line.
ghost use Rattle.std.specs.Prelude.{◌≡◌, ◌∷◌, [], ◌==◌, List, ℕ, MatchOption, bytes_eq};
ghost use Rattle.std.specs.List.{position};
ghost use Rattle.df_celltext.specs.Cuts.{cut_at, words_of};

use df_values::memory::Memory;
use std::marker::Model;

/// Why the words of a line weren't read.
#[derive(Clone, Copy, PartialEq, Eq, Debug)]
pub enum LineAnswer {
    /// The words are wrong.
    Wrong,
    /// Want of memory.
    Memory,
}

/// The words of a line that are left. Single spaces part them, so that two neighbouring spaces have the empty word between them.
#[derive(Drop)]
pub struct Words<'a> {
    rest: &'a [u8],
    ended: bool,
}

impl<'a> Model for Words<'a> {
    ghost use Rattle.std.specs.Prelude.{List, ℕ, [], cond};
    ghost use Rattle.df_celltext.specs.Cuts.{words_of};

    ghost Value = { List (List ℕ) };

    ghost view = { λ w. cond w.ended [] (words_of w.rest.now) };
}

impl From<Memory> for LineAnswer {
    ghost use Rattle.std.specs.Prelude.{◌≡◌};
    ghost use Rattle.df_celltext.specs.declared.words.LineAnswer.TheVariants.{Memory};

    ghost from_gives = { λ _ answer. answer ≡ Memory };

    fn from(_refused: Memory) -> LineAnswer {
        LineAnswer::Memory
    }
}

/// Whether a word is this text.
pub fn is(word: &[u8], text: &str) -> bool
    ensures { result ≡ bytes_eq word.now text.now }
{
    word == text.as_bytes()
}

fn place_of(text: &[u8], mark: u8) -> Option<usize>
    ensures { result ≡ position (λ b. b == mark) text.now }
{
    text.iter().position(|byte| *byte == mark)
}

/// What stands before the first such byte and what stands behind it, where there is one.
pub fn cut(text: &[u8], mark: u8) -> Option<(&[u8], &[u8])>
    ensures { MatchOption result (cut_at mark text.now ≡ None) (λ parts. cut_at mark text.now ≡ Some (parts.0.now, parts.1.now)) }
{
    match place_of(text, mark) {
        Some(at) => Some((&text[..at], &text[at + 1..])),
        None => None,
    }
}

impl<'a> Words<'a> {
    /// All words of a line.
    pub fn new(line: &'a [u8]) -> Words<'a>
        ensures { result ≡ words_of line.now }
    {
        Words {
            rest: line,
            ended: false,
        }
    }

    /// Takes the next word.
    pub fn next(&mut self) -> Option<&'a [u8]>
        ensures { MatchOption result ((self.old ≡ []) × (self.new ≡ [])) (λ word. self.old ≡ word.now ∷ self.new) }
    {
        if self.ended {
            return None;
        }
        match cut(self.rest, b' ') {
            Some((word, rest)) => {
                self.rest = rest;
                Some(word)
            }
            None => {
                self.ended = true;
                Some(self.rest)
            }
        }
    }
}
