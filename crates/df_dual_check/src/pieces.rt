//! Pieces at the front of a text.
ghost use Rattle.std.specs.Prelude.{◌≡◌, ◌<◌, ◌^◌, ◌∷◌, ◌++◌, ℕ, List, IfSome, IfNone, codes};
ghost use Rattle.std.specs.Fmt.{decimal};
ghost use Rattle.df_dual_check.specs.DualTexts.{line, head_line, port_text, arc_line};

use df_cells::cells::Dest;
use df_stages::skeleton::SkeletonArc;
use df_values::decimals::leading_number;
use itoa::Buffer;

/// What stands behind the piece, where the text begins with it.
pub fn after<'a>(text: &'a [u8], piece: &[u8]) -> Option<&'a [u8]>
    ensures found { IfSome result (λ rest. text.now ≡ piece.now ++ rest.now) }
    ensures none { IfNone result ((rest : List ℕ) → ¬ (text.now ≡ piece.now ++ rest)) }
{
    match text.strip_prefix(piece) {
        Some(rest) => Some(rest),
        None => None,
    }
}

/// What stands behind the decimal of a number.
fn after_number(text: &[u8], number: u64) -> Option<&[u8]>
    ensures found { IfSome result (λ rest. text.now ≡ decimal number ++ rest.now) }
    ensures none { IfNone result ((rest : List ℕ) → ¬ (text.now ≡ decimal number ++ rest)) }
{
    let mut buffer = Buffer::new();
    after(text, buffer.format(number).as_bytes())
}

/// What stands behind a piece and the decimal of a number.
fn after_both<'a>(text: &'a [u8], piece: &[u8], number: u64) -> Option<&'a [u8]>
    ensures found { IfSome result (λ rest. text.now ≡ piece.now ++ (decimal number ++ rest.now)) }
    ensures none { IfNone result ((rest : List ℕ) → ¬ (text.now ≡ piece.now ++ (decimal number ++ rest))) }
{
    match after(text, piece) {
        Some(behind) => after_number(behind, number),
        None => None,
    }
}

/// What stands behind the first line.
pub fn after_head(text: &[u8], count: u64) -> Option<&[u8]>
    ensures found { IfSome result (λ rest. text.now ≡ line (head_line count) ++ rest.now) }
    ensures none { IfNone result ((rest : List ℕ) → ¬ (text.now ≡ line (head_line count) ++ rest)) }
{
    match after_both(text, b"dual 1 ", count) {
        Some(behind) => after(behind, b"\n"),
        None => None,
    }
}

/// What stands behind a port and a space.
fn after_port(text: &[u8], port: Dest) -> Option<&[u8]>
    ensures found { IfSome result (λ rest. text.now ≡ port_text port ++ rest.now) }
    ensures none { IfNone result ((rest : List ℕ) → ¬ (text.now ≡ port_text port ++ rest)) }
{
    match after_number(text, u64::from(port.cell.0)) {
        Some(behind) => match after_both(behind, b".", u64::from(port.port.0)) {
            Some(rest) => after(rest, b" "),
            None => None,
        },
        None => None,
    }
}

/// The number of 32 bits up to the line's end, and what stands behind it.
fn last_number(text: &[u8]) -> Option<(u32, &[u8])>
    ensures found { IfSome result (λ read. text.now ≡ line (decimal read.0) ++ read.1.now) }
    ensures small { IfSome result (λ read. read.0 < 2 ^ 32) }
    ensures none { IfNone result ((f : ℕ) (rest : List ℕ) → f < 2 ^ 32 → ¬ (text.now ≡ line (decimal f) ++ rest)) }
{
    let Some((number, length)) = leading_number(text) else {
        return None;
    };
    if number > u64::from(u32::MAX) {
        return None;
    }
    match after(&text[length..], b"\n") {
        Some(rest) => Some((number as u32, rest)),
        None => None,
    }
}

/// The flow on the line of an arc, and what stands behind the line.
pub fn arc_flow<'a>(text: &'a [u8], arc: &SkeletonArc) -> Option<(u32, &'a [u8])>
    ensures found { IfSome result (λ read. text.now ≡ line (arc_line arc.now read.0) ++ read.1.now) }
    ensures small { IfSome result (λ read. read.0 < 2 ^ 32) }
    ensures none { IfNone result ((f : ℕ) (rest : List ℕ) → f < 2 ^ 32 → ¬ (text.now ≡ line (arc_line arc.now f) ++ rest)) }
{
    match after_port(text, arc.name) {
        Some(behind) => last_number(behind),
        None => None,
    }
}
