//! Tokens that open a bracket.
ghost use Rattle.std.specs.Prelude.{◌≡◌, ◌<◌, OnOk};
ghost use Rattle.df_syntax.specs.TokenClasses as class;
ghost use Rattle.df_syntax.specs.TokenClasses.{code};
ghost use Rattle.df_cursor.specs.Reads.{Reads, opened};

use crate::cursor::Cursor;
use crate::error::ParseError;
use df_syntax::symbol::Symbol;
use df_syntax::token::Token;
use df_syntax::word::Reserved;

impl<'a> Cursor<'a> {
    /// Takes a word that opens a bracket.
    #[tactic(auto, using(crate::proofs::Opening::opened_room, crate::proofs::Opening::opened_deep, crate::proofs::Opening::opened_wrong))]
    pub fn open_word(
        &mut self,
        wanted: Reserved,
        level: usize,
        depth: usize,
    ) -> Result<Token, ParseError>
        ensures takes { Reads (opened depth level (code (class.word wanted)) self.old.rest.now) self.old.rest.now result self.new.rest.now }
        ensures room { OnOk result (level < depth) }
    {
        if level >= depth {
            return Err(if self.sees_word(wanted) {
                ParseError::Deep
            } else {
                ParseError::Wrong
            });
        }
        self.take_word(wanted)
    }

    /// Takes a symbol that opens a bracket.
    #[tactic(auto, using(crate::proofs::Opening::opened_room, crate::proofs::Opening::opened_deep, crate::proofs::Opening::opened_wrong))]
    pub fn open_symbol(
        &mut self,
        wanted: Symbol,
        level: usize,
        depth: usize,
    ) -> Result<Token, ParseError>
        ensures takes { Reads (opened depth level (code (class.symbol wanted)) self.old.rest.now) self.old.rest.now result self.new.rest.now }
        ensures room { OnOk result (level < depth) }
    {
        if depth <= level {
            return Err(if self.sees_symbol(wanted) {
                ParseError::Deep
            } else {
                ParseError::Wrong
            });
        }
        self.take_symbol(wanted)
    }
}
