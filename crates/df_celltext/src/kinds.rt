//! The names of kinds, written and read.
ghost use Rattle.std.specs.Prelude.{◌≡◌};
ghost use Rattle.df_celltext.specs.CellText.{spaced, kind_words};
ghost use Rattle.df_celltext.specs.PlainKinds.{IsPlain};
ghost use Rattle.df_celltext.specs.Reading.{named_in, operators, relations, controls, tests, plain_named};

use crate::words::is;
use df_cells::kinds::Kind;

/// The name of a kind that has nothing with it in a cell's line, with a space before it.
pub fn plain_word(kind: &Kind) -> &'static str
    ensures { IsPlain kind.now → result.now ≡ spaced (kind_words kind.now) }
{
    match kind {
        Kind::Buf => " BUF",
        Kind::Add => " ADD",
        Kind::Sub => " SUB",
        Kind::Mul => " MUL",
        Kind::Div => " DIV",
        Kind::Mod => " MOD",
        Kind::Min => " MIN",
        Kind::Max => " MAX",
        Kind::Lt => " LT",
        Kind::Le => " LE",
        Kind::Gt => " GT",
        Kind::Ge => " GE",
        Kind::Eq => " EQ",
        Kind::Ne => " NE",
        Kind::And => " AND",
        Kind::Or => " OR",
        Kind::Neg => " NEG",
        Kind::Not => " NOT",
        Kind::IsUndef => " IS_UNDEF",
        Kind::IsMissElt => " IS_MISS_ELT",
        Kind::IsPosOver => " IS_POS_OVER",
        Kind::IsNegOver => " IS_NEG_OVER",
        Kind::IsUnknown => " IS_UNKNOWN",
        Kind::IsZeroDivide => " IS_ZERO_DIVIDE",
        Kind::IsError => " IS_ERROR",
        Kind::Tgate => " TGATE",
        Kind::Fgate => " FGATE",
        Kind::Merge => " MERGE",
        Kind::In { .. } | Kind::Idx { .. } | Kind::Ctl { .. } | Kind::Out { .. } => "",
    }
}

/// The kind of this name, where it is one that has nothing with it in a cell's line.
#[tactic(auto, unfolding(crate::specs::Reading::plain_named))]
pub fn plain_kind(name: &[u8]) -> Option<Kind>
    ensures { result ≡ plain_named name.now }
{
    if let Some(kind) = operator(name) {
        return Some(kind);
    }
    if let Some(kind) = relation(name) {
        return Some(kind);
    }
    if let Some(kind) = control(name) {
        return Some(kind);
    }
    test(name)
}

fn operator(name: &[u8]) -> Option<Kind>
    ensures { result ≡ named_in operators name.now }
{
    if is(name, "ADD") {
        Some(Kind::Add)
    } else if is(name, "SUB") {
        Some(Kind::Sub)
    } else if is(name, "MUL") {
        Some(Kind::Mul)
    } else if is(name, "DIV") {
        Some(Kind::Div)
    } else if is(name, "MOD") {
        Some(Kind::Mod)
    } else if is(name, "MIN") {
        Some(Kind::Min)
    } else if is(name, "MAX") {
        Some(Kind::Max)
    } else {
        None
    }
}

fn relation(name: &[u8]) -> Option<Kind>
    ensures { result ≡ named_in relations name.now }
{
    if is(name, "LT") {
        Some(Kind::Lt)
    } else if is(name, "LE") {
        Some(Kind::Le)
    } else if is(name, "GT") {
        Some(Kind::Gt)
    } else if is(name, "GE") {
        Some(Kind::Ge)
    } else if is(name, "EQ") {
        Some(Kind::Eq)
    } else if is(name, "NE") {
        Some(Kind::Ne)
    } else {
        None
    }
}

fn control(name: &[u8]) -> Option<Kind>
    ensures { result ≡ named_in controls name.now }
{
    if is(name, "AND") {
        Some(Kind::And)
    } else if is(name, "OR") {
        Some(Kind::Or)
    } else if is(name, "NEG") {
        Some(Kind::Neg)
    } else if is(name, "NOT") {
        Some(Kind::Not)
    } else if is(name, "BUF") {
        Some(Kind::Buf)
    } else if is(name, "TGATE") {
        Some(Kind::Tgate)
    } else if is(name, "FGATE") {
        Some(Kind::Fgate)
    } else if is(name, "MERGE") {
        Some(Kind::Merge)
    } else {
        None
    }
}

fn test(name: &[u8]) -> Option<Kind>
    ensures { result ≡ named_in tests name.now }
{
    if is(name, "IS_UNDEF") {
        Some(Kind::IsUndef)
    } else if is(name, "IS_MISS_ELT") {
        Some(Kind::IsMissElt)
    } else if is(name, "IS_POS_OVER") {
        Some(Kind::IsPosOver)
    } else if is(name, "IS_NEG_OVER") {
        Some(Kind::IsNegOver)
    } else if is(name, "IS_UNKNOWN") {
        Some(Kind::IsUnknown)
    } else if is(name, "IS_ZERO_DIVIDE") {
        Some(Kind::IsZeroDivide)
    } else if is(name, "IS_ERROR") {
        Some(Kind::IsError)
    } else {
        None
    }
}
