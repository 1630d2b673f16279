//! The tokens that are left, the first of them in hand.
ghost use Rattle.std.specs.Prelude.{◌≡◌, ◌==◌, [], ◌∷◌, true, false, MatchOption};
ghost use Rattle.df_forms.specs.Reading.{sees, read_token};
ghost use Rattle.df_syntax.specs.TokenClasses as class;
ghost use Rattle.df_syntax.specs.TokenClasses.{code, class_of};
ghost use Rattle.df_syntax.specs.Grammar.{name_in, number_in};
ghost use Rattle.df_cursor.specs.Reads.{Reads, Takes};

use crate::error::ParseError;
use df_syntax::symbol::Symbol;
use df_syntax::token::{Token, TokenKind};
use df_syntax::word::Reserved;
use df_values::name::Name;
use df_values::values::Integer;

/// The tokens that are left. A call that refuses leaves the wrong token in hand.
#[derive(Drop)]
pub struct Cursor<'a> {
    /// They, in order.
    pub rest: &'a [Token],
}

fn is_word(kind: TokenKind, wanted: Reserved) -> bool
    ensures { result ≡ (code (class_of kind) == code (class.word wanted)) }
{
    match kind {
        TokenKind::Reserved(found) => found == wanted,
        _ => false,
    }
}

fn is_symbol(kind: TokenKind, wanted: Symbol) -> bool
    ensures { result ≡ (code (class_of kind) == code (class.symbol wanted)) }
{
    match kind {
        TokenKind::Symbol(found) => found == wanted,
        _ => false,
    }
}

fn name_of(kind: TokenKind) -> Option<Name>
    ensures { MatchOption result ((code (class_of kind) == code class.name) ≡ false) (λ name. ((code (class_of kind) == code class.name) ≡ true) × (name ≡ name_in kind)) }
{
    match kind {
        TokenKind::Name(name) => Some(name),
        _ => None,
    }
}

fn number_of(kind: TokenKind) -> Option<Integer>
    ensures { MatchOption result ((code (class_of kind) == code class.number) ≡ false) (λ value. ((code (class_of kind) == code class.number) ≡ true) × (value ≡ number_in kind)) }
{
    match kind {
        TokenKind::Number(value) => Some(value),
        _ => None,
    }
}

impl<'a> Cursor<'a> {
    /// Whether this word is in hand.
    #[tactic(auto, using(crate::proofs::Hands::sees_at, crate::proofs::Hands::token_found, crate::proofs::Hands::token_wrong))]
    pub fn sees_word(&self, wanted: Reserved) -> bool
        ensures { result ≡ sees class.class (code (class.word wanted) ∷ []) self.now.rest.now }
    {
        match self.rest.first() {
            Some(token) => is_word(token.kind, wanted),
            None => false,
        }
    }

    /// Whether this symbol is in hand.
    #[tactic(auto, using(crate::proofs::Hands::sees_at, crate::proofs::Hands::token_found, crate::proofs::Hands::token_wrong))]
    pub fn sees_symbol(&self, wanted: Symbol) -> bool
        ensures { result ≡ sees class.class (code (class.symbol wanted) ∷ []) self.now.rest.now }
    {
        match self.rest.first() {
            Some(token) => is_symbol(token.kind, wanted),
            None => false,
        }
    }

    /// Whether a name is in hand.
    #[tactic(auto, using(crate::proofs::Hands::sees_at, crate::proofs::Hands::token_found, crate::proofs::Hands::token_wrong))]
    pub fn sees_name(&self) -> bool
        ensures { result ≡ sees class.class (code class.name ∷ []) self.now.rest.now }
    {
        match self.rest.first() {
            Some(token) => name_of(token.kind).is_some(),
            None => false,
        }
    }

    /// Whether a number is in hand.
    #[tactic(auto, using(crate::proofs::Hands::sees_at, crate::proofs::Hands::token_found, crate::proofs::Hands::token_wrong))]
    pub fn sees_number(&self) -> bool
        ensures { result ≡ sees class.class (code class.number ∷ []) self.now.rest.now }
    {
        match self.rest.first() {
            Some(token) => number_of(token.kind).is_some(),
            None => false,
        }
    }

    /// Takes this word.
    #[tactic(auto, using(crate::proofs::Hands::sees_at, crate::proofs::Hands::token_found, crate::proofs::Hands::token_wrong))]
    pub fn take_word(&mut self, wanted: Reserved) -> Result<Token, ParseError>
        ensures { Reads (read_token class.class (code (class.word wanted)) self.old.rest.now) self.old.rest.now result self.new.rest.now }
    {
        let Some((token, rest)) = self.rest.split_first() else {
            return Err(ParseError::Wrong);
        };
        if !is_word(token.kind, wanted) {
            return Err(ParseError::Wrong);
        }
        self.rest = rest;
        Ok(*token)
    }

    /// Takes this symbol.
    #[tactic(auto, using(crate::proofs::Hands::sees_at, crate::proofs::Hands::token_found, crate::proofs::Hands::token_wrong))]
    pub fn take_symbol(&mut self, wanted: Symbol) -> Result<Token, ParseError>
        ensures { Reads (read_token class.class (code (class.symbol wanted)) self.old.rest.now) self.old.rest.now result self.new.rest.now }
    {
        let Some((token, rest)) = self.rest.split_first() else {
            return Err(ParseError::Wrong);
        };
        if !is_symbol(token.kind, wanted) {
            return Err(ParseError::Wrong);
        }
        self.rest = rest;
        Ok(*token)
    }

    /// Takes a name.
    #[tactic(auto, using(crate::proofs::Hands::sees_at, crate::proofs::Hands::token_found, crate::proofs::Hands::token_wrong))]
    pub fn take_name(&mut self) -> Result<(Token, Name), ParseError>
        ensures { Takes name_in (read_token class.class (code class.name) self.old.rest.now) self.old.rest.now result self.new.rest.now }
    {
        let Some((token, rest)) = self.rest.split_first() else {
            return Err(ParseError::Wrong);
        };
        let Some(name) = name_of(token.kind) else {
            return Err(ParseError::Wrong);
        };
        self.rest = rest;
        Ok((*token, name))
    }

    /// Takes a number.
    #[tactic(auto, using(crate::proofs::Hands::sees_at, crate::proofs::Hands::token_found, crate::proofs::Hands::token_wrong))]
    pub fn take_number(&mut self) -> Result<(Token, Integer), ParseError>
        ensures { Takes number_in (read_token class.class (code class.number) self.old.rest.now) self.old.rest.now result self.new.rest.now }
    {
        let Some((token, rest)) = self.rest.split_first() else {
            return Err(ParseError::Wrong);
        };
        let Some(value) = number_of(token.kind) else {
            return Err(ParseError::Wrong);
        };
        self.rest = rest;
        Ok((*token, value))
    }
}
