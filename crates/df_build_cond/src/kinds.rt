//! The kinds of the cells that join two values or change one.
ghost use Rattle.std.specs.Prelude.{◌≡◌};
ghost use Rattle.df_cells.specs.Families.{kind_of, kind_of_one};
ghost use Rattle.df_cells.specs.Kinds.{port_count, HasCanonicalRuns};

use df_cells::kinds::Kind;
use df_values::kinds::{Binary, Op, Rel, Test, Unary};

fn kind_of_operation(op: Op) -> Kind
    ensures kind { result ≡ kind_of (Binary.Operation op) }
    ensures ports { port_count result ≡ 2 }
    ensures runs { HasCanonicalRuns result }
{
    match op {
        Op::Add => Kind::Add,
        Op::Sub => Kind::Sub,
        Op::Mul => Kind::Mul,
        Op::Div => Kind::Div,
        Op::Mod => Kind::Mod,
        Op::Min => Kind::Min,
        Op::Max => Kind::Max,
        Op::And => Kind::And,
        Op::Or => Kind::Or,
    }
}

/// The kind of cell that joins two values so. It has two ports.
pub fn kind_of(how: Binary) -> Kind
    ensures kind { result ≡ kind_of how }
    ensures ports { port_count result ≡ 2 }
    ensures runs { HasCanonicalRuns result }
{
    match how {
        Binary::Operation(op) => kind_of_operation(op),
        Binary::Comparison(Rel::Lt) => Kind::Lt,
        Binary::Comparison(Rel::Le) => Kind::Le,
        Binary::Comparison(Rel::Gt) => Kind::Gt,
        Binary::Comparison(Rel::Ge) => Kind::Ge,
        Binary::Comparison(Rel::Eq) => Kind::Eq,
        Binary::Comparison(Rel::Ne) => Kind::Ne,
    }
}

/// The kind of cell that changes one value so. It has one port.
pub fn kind_of_one(how: Unary) -> Kind
    ensures kind { result ≡ kind_of_one how }
    ensures ports { port_count result ≡ 1 }
    ensures runs { HasCanonicalRuns result }
{
    match how {
        Unary::Negation => Kind::Neg,
        Unary::Inversion => Kind::Not,
        Unary::Inquiry(Test::Undef) => Kind::IsUndef,
        Unary::Inquiry(Test::MissElt) => Kind::IsMissElt,
        Unary::Inquiry(Test::PosOver) => Kind::IsPosOver,
        Unary::Inquiry(Test::NegOver) => Kind::IsNegOver,
        Unary::Inquiry(Test::Unknown) => Kind::IsUnknown,
        Unary::Inquiry(Test::ZeroDivide) => Kind::IsZeroDivide,
        Unary::Inquiry(Test::Error) => Kind::IsError,
    }
}
