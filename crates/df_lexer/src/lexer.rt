//! The lexer: one piece after the other is taken from the front of the text.
ghost use Rattle.std.specs.Prelude.{◌≡◌, ◌≤◌, IsTrue, OnOk, IfOk, IfErr, Err, [], length, take, drop};
ghost use Rattle.df_io.specs.declared.place.Place as place;
ghost use Rattle.df_syntax.specs.Pieces.{is_letter, is_digit, IsLongest};
ghost use Rattle.df_syntax.specs.Places.{moved};
ghost use Rattle.df_syntax.specs.Tokens.{Spells, Gives, Splits, FirstBad, no_token, literal_too_large, name_too_long};
ghost use Rattle.df_lexer.specs.Steps.{begins, BeginsNoRun, HasRoom, Advances, Refuses};
ghost use Rattle.df_lexer.specs.declared.lexer.LexAnswer.TheVariants.{Memory as NoMemory};

use crate::number::number_of;
use crate::place::moved;
use crate::run::{digit_run, is_white, line_run, name_run, white_run};
use crate::symbol::leading_symbol;
use crate::word::word_kind;
use df_io::Place;
use df_syntax::token::{Token, TokenKind, Tokens};
use df_values::memory::Memory;
use std::alloc::Global;

// How many bytes a name has at most.
const LONGEST_NAME: usize = 64;

/// Why a text has no tokens: the first place where it can't be read.
#[derive(Clone, Copy, Debug, PartialEq, Eq)]
pub enum LexAnswer {
    /// No token begins here.
    BadByte(Place),
    /// A number above the greatest integer begins here.
    LiteralTooLarge(Place),
    /// A name of more than 64 bytes begins here.
    NameTooLong(Place),
    /// Want of memory.
    Memory,
}

impl From<Memory> for LexAnswer {
    ghost from_gives = { λ _ e. e ≡ NoMemory };

    fn from(_want: Memory) -> LexAnswer {
        LexAnswer::Memory
    }
}

/// The tokens of a text of at most 4,294,967,294 bytes, or the first place where it can't be read.
///
/// At each place the longest token is taken. Blanks and comments, which run from `%` to the end of
/// their line, stand between tokens.
pub fn lex(alloc: Global, text: &[u8]) -> Result<Tokens, LexAnswer>
    requires { length text.now ≤ 4294967294 }
    ensures tokens { IfOk result (λ found. Splits text.now found.tokens found.end) }
    ensures bad_byte { (at : place.Place) → result ≡ Err (LexAnswer.BadByte at) → FirstBad text.now at no_token }
    ensures literal_too_large { (at : place.Place)
        → result ≡ Err (LexAnswer.LiteralTooLarge at) → FirstBad text.now at literal_too_large }
    ensures name_too_long { (at : place.Place)
        → result ≡ Err (LexAnswer.NameTooLong at) → FirstBad text.now at name_too_long }
{
    let mut lexer = Lexer {
        rest: text,
        place: Place { line: 1, column: 1 },
        tokens: Tokens::new(alloc),
    };
    while !lexer.rest.is_empty() {
        lexer.take_piece()?;
    }
    let Lexer {
        place,
        mut tokens,
        ..
    } = lexer;
    tokens.end_at(place);
    Ok(tokens)
}

// What is left of a text, the place where that begins, and the tokens up to there.
#[derive(Drop)]
struct Lexer<'a> {
    rest: &'a [u8],
    place: Place,
    tokens: Tokens,
}

impl<'a> Lexer<'a> {
    // Takes the longest piece.
    fn take_piece(&mut self) -> Result<(), LexAnswer>
        requires some { 1 ≤ length self.old.rest.now }
        requires room { HasRoom self.old }
        ensures ok { OnOk result (Advances self.old self.new) }
        ensures err { IfErr result (Refuses self.old.place self.old.rest.now) }
    {
        let first = self.rest[0];
        if is_white(first) {
            self.skip(white_run(self.rest));
            Ok(())
        } else if first == b'%' {
            self.skip(line_run(self.rest));
            Ok(())
        } else if first.is_ascii_digit() {
            self.take_number()
        } else if first.is_ascii_alphabetic() {
            self.take_word()
        } else {
            self.take_symbol()
        }
    }

    // Takes the digits, which are a number.
    fn take_number(&mut self) -> Result<(), LexAnswer>
        requires begins { IsTrue (begins is_digit self.old.rest.now) }
        requires room { HasRoom self.old }
        ensures ok { OnOk result (Advances self.old self.new) }
        ensures err { IfErr result (Refuses self.old.place self.old.rest.now) }
    {
        let count = digit_run(self.rest);
        match number_of(&self.rest[..count]) {
            Some(number) => self.take_token(TokenKind::Number(number), count),
            None => Err(LexAnswer::LiteralTooLarge(self.place)),
        }
    }

    // Takes the letters, digits and `_`, which are a word.
    fn take_word(&mut self) -> Result<(), LexAnswer>
        requires begins { IsTrue (begins is_letter self.old.rest.now) }
        requires room { HasRoom self.old }
        ensures ok { OnOk result (Advances self.old self.new) }
        ensures err { IfErr result (Refuses self.old.place self.old.rest.now) }
    {
        let count = name_run(self.rest);
        if count > LONGEST_NAME {
            return Err(LexAnswer::NameTooLong(self.place));
        }
        self.take_token(word_kind(&self.rest[..count]), count)
    }

    // Takes the longest symbol, where no other sort of piece begins.
    fn take_symbol(&mut self) -> Result<(), LexAnswer>
        requires begins { BeginsNoRun self.old.rest.now }
        requires room { HasRoom self.old }
        ensures ok { OnOk result (Advances self.old self.new) }
        ensures err { IfErr result (Refuses self.old.place self.old.rest.now) }
    {
        match leading_symbol(self.rest) {
            Some(symbol) => self.take_token(TokenKind::Symbol(symbol), symbol.spelling().len()),
            None => Err(LexAnswer::BadByte(self.place)),
        }
    }

    // Takes the piece of this length, which is a token.
    fn take_token(&mut self, kind: TokenKind, count: usize) -> Result<(), LexAnswer>
        requires longest { IsLongest self.old.rest.now (take count self.old.rest.now) (drop count self.old.rest.now) }
        requires spelled { Spells (take count self.old.rest.now) kind }
        requires within { count ≤ length self.old.rest.now }
        requires room { HasRoom self.old }
        ensures ok { OnOk result (Advances self.old self.new) }
        ensures err { IfErr result (λ e. e ≡ LexAnswer.Memory) }
    {
        self.tokens.push(Token {
            kind,
            place: self.place,
        })?;
        self.advance(count);
        Ok(())
    }

    // Takes the piece of this length, which is blank or a comment.
    fn skip(&mut self, count: usize)
        requires longest { IsLongest self.old.rest.now (take count self.old.rest.now) (drop count self.old.rest.now) }
        requires layout { Gives self.old.place (take count self.old.rest.now) [] }
        requires within { count ≤ length self.old.rest.now }
        requires room { HasRoom self.old }
        ensures { Advances self.old self.new }
    {
        self.advance(count);
    }

    // Goes on behind these bytes.
    fn advance(&mut self, count: usize)
        requires within { count ≤ length self.old.rest.now }
        requires room { HasRoom self.old }
        ensures rest { self.new.rest.now ≡ drop count self.old.rest.now }
        ensures place { self.new.place ≡ moved self.old.place (take count self.old.rest.now) }
        ensures tokens { self.new.tokens ≡ self.old.tokens }
    {
        let (piece, rest) = self.rest.split_at(count);
        self.place = moved(self.place, piece);
        self.rest = rest;
    }
}
