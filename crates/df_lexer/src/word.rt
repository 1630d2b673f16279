//! Words.
ghost use Rattle.std.specs.Prelude.{◌≡◌, ◌≤◌, bytes_eq, length};
ghost use Rattle.std.specs.List.{list_any};
ghost use Rattle.df_syntax.specs.Words.{unsupported_words, reserved_at};
ghost use Rattle.df_syntax.specs.Pieces.{IsWord};
ghost use Rattle.df_syntax.specs.Tokens.{Spells};

use df_syntax::token::TokenKind;
use df_syntax::word::Reserved;
use df_values::name::Name;

const RESERVED: [Reserved; 42] = [
    Reserved::Constant,
    Reserved::Range,
    Reserved::Function,
    Reserved::Returns,
    Reserved::EndFun,
    Reserved::Let,
    Reserved::In,
    Reserved::EndLet,
    Reserved::If,
    Reserved::Then,
    Reserved::ElseIf,
    Reserved::Else,
    Reserved::EndIf,
    Reserved::ForAll,
    Reserved::Construct,
    Reserved::Eval,
    Reserved::EndAll,
    Reserved::For,
    Reserved::Do,
    Reserved::Iter,
    Reserved::EndIter,
    Reserved::EndFor,
    Reserved::Integer,
    Reserved::Boolean,
    Reserved::Array,
    Reserved::True,
    Reserved::False,
    Reserved::Undef,
    Reserved::MissElt,
    Reserved::PosOver,
    Reserved::NegOver,
    Reserved::Unknown,
    Reserved::ZeroDivide,
    Reserved::Is,
    Reserved::Error,
    Reserved::Mod,
    Reserved::Min,
    Reserved::Max,
    Reserved::Plus,
    Reserved::Times,
    Reserved::And,
    Reserved::Or,
];

const UNSUPPORTED: [&str; 20] = [
    "real",
    "character",
    "null",
    "record",
    "oneof",
    "tagcase",
    "endtag",
    "array_fill",
    "array_empty",
    "array_addh",
    "array_addl",
    "array_remh",
    "array_reml",
    "array_limh",
    "array_liml",
    "array_size",
    "array_join",
    "array_adjust",
    "abs",
    "exp",
];

/// The token that a word is.
pub fn word_kind(word: &[u8]) -> TokenKind
    requires word { IsWord word.now }
    requires short { length word.now ≤ 64 }
    ensures { Spells word.now result }
{
    if let Some(reserved) = reserved(word) {
        TokenKind::Reserved(reserved)
    } else if is_unsupported(word) {
        TokenKind::Unsupported(Name::new(word))
    } else {
        TokenKind::Name(Name::new(word))
    }
}

// The reserved word that is spelled so.
fn reserved(word: &[u8]) -> Option<Reserved>
    ensures { result ≡ reserved_at word.now }
{
    RESERVED
        .iter()
        .copied()
        .find(|reserved| reserved.spelling().as_bytes() == word)
}

// Whether the word is one of the language that is refused.
fn is_unsupported(word: &[u8]) -> bool
    ensures { result ≡ list_any (bytes_eq word.now) unsupported_words }
{
    is_one_of(word, &UNSUPPORTED)
}

// Whether the word is one of these.
fn is_one_of(word: &[u8], words: &[&str]) -> bool
    ensures { result ≡ list_any (λ w. bytes_eq word.now w.now) words.now }
{
    words.iter().any(|one| one.as_bytes() == word)
}
