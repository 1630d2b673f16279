//! The tree of a source, or why it has none.
ghost use Rattle.std.specs.Prelude.{◌≡◌, IfOk};
ghost use Rattle.df_syntax.specs.Refusals.{Answer, IsAnswer, most_open};
ghost use Rattle.df_syntax.specs.WellBuilt.{IsWellBuilt};
ghost use Rattle.df_grammar.specs.Answers.{IsAnswered, IsThis, of_kind, refusal};

use crate::descent::Descent;
use crate::terms::expr;
use df_cursor::cursor::Cursor;
use df_cursor::error::ParseError;
use df_io::Place;
use df_syntax::program::Program;
use df_syntax::token::{Token, TokenKind, Tokens};
use df_values::name::Name;
use std::alloc::Global;

// How many brackets of a source may be open.
const MOST_OPEN: usize = 64;

/// Why tokens are no source that is read.
#[derive(Clone, Copy, Debug, PartialEq, Eq)]
pub enum ParseAnswer {
    /// No source begins with the tokens up to the one that stands here, or the text ends here too
    /// early.
    Syntax(Place),
    /// The 65th bracket opens here, and a source may begin with the tokens up to it.
    TooDeep(Place),
    /// No source begins with the tokens up to this word of the language, which is refused.
    Unsupported(Name, Place),
    /// Want of memory.
    Memory,
}

// The refusal of a wrong token.
fn of_kind(kind: TokenKind, place: Place) -> ParseAnswer
    ensures { result ≡ of_kind kind place }
{
    match kind {
        TokenKind::Unsupported(name) => ParseAnswer::Unsupported(name, place),
        _ => ParseAnswer::Syntax(place),
    }
}

// The refusal of the token in hand, where the text ends at this place.
fn refused(why: ParseError, rest: &[Token], end: Place) -> ParseAnswer
    ensures { result ≡ refusal why rest.now end }
{
    let Some((token, _)) = rest.split_first() else {
        return match why {
            ParseError::Memory => ParseAnswer::Memory,
            ParseError::Wrong => ParseAnswer::Syntax(end),
            ParseError::Deep => ParseAnswer::TooDeep(end),
        };
    };
    match why {
        ParseError::Memory => ParseAnswer::Memory,
        ParseError::Wrong => of_kind(token.kind, token.place),
        ParseError::Deep => ParseAnswer::TooDeep(token.place),
    }
}

/// The tree of a source.
///
/// The first wrong token is the least one such that no source of the grammar, of any depth, begins
/// with the tokens up to it; the text's end counts as a last token. It gives `Unsupported` if it is
/// an unsupported word, and else `Syntax`. `TooDeep` comes where a token before it opens the 65th
/// bracket. A list of tokens has one answer, and gets it or `Memory`. A tree keeps the bounds that
/// its types name, and nests at most 64 brackets.
pub fn parse(alloc: Global, tokens: &Tokens) -> Result<Program, ParseAnswer>
    ensures answered { IsAnswered tokens.now result }
    ensures built { IfOk result (λ tree. IsWellBuilt most_open tree) }
    ensures exact { (answer : Answer) → IsAnswer tokens.now answer → IsThis result answer }
{
    let mut cursor = Cursor {
        rest: tokens.as_slice(),
    };
    // The source counts as a bracket of its own, so that all its expressions stand inside one.
    let descent = Descent {
        alloc,
        depth: MOST_OPEN + 1,
        expr,
    };
    match descent.source(&mut cursor) {
        Ok(tree) => {
            if cursor.rest.is_empty() {
                Ok(tree)
            } else {
                Err(refused(ParseError::Wrong, cursor.rest, tokens.end()))
            }
        }
        Err(why) => Err(refused(why, cursor.rest, tokens.end())),
    }
}
