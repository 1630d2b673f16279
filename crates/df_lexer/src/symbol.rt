//! Symbols.
ghost use Rattle.std.specs.Prelude.{◌≡◌, ◌∷◌, [], IfSome, IfNone};
ghost use Rattle.df_syntax.specs.Symbols.{symbol_at};
ghost use Rattle.df_lexer.specs.Symbols.{is_equals_second, IsLongestSymbol, BeginsNoSymbol};

use df_syntax::symbol::Symbol;

/// The longest symbol that the text begins with.
pub fn leading_symbol(text: &[u8]) -> Option<Symbol>
    ensures longest { IfSome result (IsLongestSymbol text.now) }
    ensures none { IfNone result (BeginsNoSymbol text.now) }
{
    let first = *text.first()?;
    if is_equals_second(text) {
        with_equals(first).or(single(first))
    } else {
        single(first)
    }
}

// The symbol of one byte.
fn single(byte: u8) -> Option<Symbol>
    ensures { result ≡ symbol_at (byte ∷ []) }
{
    match byte {
        b'(' => Some(Symbol::LeftParen),
        b')' => Some(Symbol::RightParen),
        b'[' => Some(Symbol::LeftBracket),
        b']' => Some(Symbol::RightBracket),
        b',' => Some(Symbol::Comma),
        b';' => Some(Symbol::Semicolon),
        b':' => Some(Symbol::Colon),
        b'=' => Some(Symbol::Equal),
        b'<' => Some(Symbol::Less),
        b'>' => Some(Symbol::Greater),
        b'+' => Some(Symbol::Plus),
        b'-' => Some(Symbol::Minus),
        b'*' => Some(Symbol::Star),
        b'/' => Some(Symbol::Slash),
        b'&' => Some(Symbol::Ampersand),
        b'|' => Some(Symbol::Bar),
        b'~' => Some(Symbol::Tilde),
        _ => None,
    }
}

// The symbol of a byte and an equals sign.
fn with_equals(byte: u8) -> Option<Symbol>
    ensures { result ≡ symbol_at (byte ∷ 61 ∷ []) }
{
    match byte {
        b':' => Some(Symbol::Becomes),
        b'~' => Some(Symbol::NotEqual),
        b'<' => Some(Symbol::LessEqual),
        b'>' => Some(Symbol::GreaterEqual),
        _ => None,
    }
}

// Whether the second byte is an equals sign.
fn is_equals_second(text: &[u8]) -> bool
    ensures { result ≡ is_equals_second text.now }
{
    matches!(text, [_, b'=', ..])
}
