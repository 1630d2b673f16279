//! What is known of an expression as a subscript.
ghost use Rattle.std.specs.Prelude.{◌≡◌, IfOk, Some, pos, ◌+ℤ◌, ◌-ℤ◌};
ghost use Rattle.std.specs.List.{list_all};
ghost use Rattle.df_values.specs.Tables.{answer, negation};
ghost use Rattle.df_syntax.specs.declared.tree.Link.{Link};
ghost use Rattle.df_syntax.specs.Meaning.{each, both, ordinary, exact, is_additive};
ghost use Rattle.df_syntax.specs.WellShaped.{look_of, chain_value, chain_offset};
ghost use Rattle.df_inline.specs.Parts.{looks_of};

use df_core::terms::Offset;
use df_syntax::tree::{Expr, Link, Node};
use df_values::kinds::Op;
use df_values::memory::Memory;
use df_values::name::Name;
use df_values::operators::{apply, negate};
use df_values::values::Value;

/// The answer of an operator.
fn join(op: Op, left: Option<Value>, right: Option<Value>) -> Option<Value>
    ensures { result ≡ both (answer op) left right }
{
    match (left, right) {
        (Some(a), Some(b)) => Some(apply(op, a, b)),
        _ => None,
    }
}

/// The answer of unary minus.
fn negated(of: Option<Value>) -> Option<Value>
    ensures { result ≡ each negation of }
{
    match of {
        Some(a) => Some(negate(a)),
        None => None,
    }
}

/// The value of an expression that is made of literals alone.
#[cycle(manifest)]
#[tactic(auto, using(crate::proofs::Looks::looks))]
pub fn manifest(expr: &Expr) -> Option<Value>
    ensures { result ≡ (look_of expr.now).manifest }
{
    match expr.node.get() {
        Node::Number { value } => Some(Value::Int(*value)),
        Node::Truth { value } => Some(Value::Truth(*value)),
        Node::Error { value, .. } => Some(Value::Error(*value)),
        Node::Chain { first, rest } => {
            let first = manifest(first);
            joined(first, rest.as_slice())
        }
        Node::Negate { of } => negated(manifest(of)),
        Node::Parens { of } => manifest(of),
        Node::TwoPlace { op, left, right } => {
            let left = manifest(left);
            let right = manifest(right);
            join(*op, left, right)
        }
        _ => None,
    }
}

/// A chain of such expressions from its first value on.
#[cycle(manifest)]
fn joined(first: Option<Value>, rest: &[Link]) -> Option<Value>
    ensures { result ≡ chain_value first (looks_of rest.now) }
{
    let mut joined = first;
    for link in rest {
        joined = join(link.op, joined, manifest(&link.operand));
    }
    joined
}

/// An ordinary integer as a whole number.
pub fn ordinary(value: Option<Value>) -> Option<Offset>
    ensures { result ≡ ordinary value }
{
    match value {
        Some(Value::Int(n)) => Some(Offset::from(n)),
        _ => None,
    }
}

/// A sum, where it has room.
fn added(a: Offset, b: Offset) -> Result<Offset, Memory>
    ensures { IfOk result (λ sum. sum ≡ a +ℤ b) }
{
    match a.checked_add(b) {
        Some(sum) => Ok(sum),
        None => Err(Memory),
    }
}

/// A difference, where it has room.
fn subtracted(a: Offset, b: Offset) -> Result<Offset, Memory>
    ensures { IfOk result (λ sum. sum ≡ a -ℤ b) }
{
    match a.checked_sub(b) {
        Some(sum) => Ok(sum),
        None => Err(Memory),
    }
}

/// A sum of whole numbers with one part more.
fn shifted(op: Op, sum: Option<Offset>, operand: Option<Offset>) -> Result<Option<Offset>, Memory>
    ensures { IfOk result (λ o. o ≡ exact op sum operand) }
{
    match (op, sum, operand) {
        (Op::Add, Some(a), Some(b)) => Ok(Some(added(a, b)?)),
        (Op::Sub, Some(a), Some(b)) => Ok(Some(subtracted(a, b)?)),
        _ => Ok(None),
    }
}

/// Whether a chain is a sum.
fn is_sum(rest: &[Link]) -> bool
    ensures { result ≡ list_all (λ (l : Link). is_additive l.op) rest.now }
{
    rest.iter().all(|link| matches!(link.op, Op::Add | Op::Sub))
}

/// Whether an expression is a name, in parentheses or not.
fn is_name(expr: &Expr, name: &Name) -> bool
    ensures { result ≡ (look_of expr.now).is_name name.now }
{
    match expr.node.get() {
        Node::Name { name: own } => *own == *name,
        Node::Parens { of } => is_name(of, name),
        _ => false,
    }
}

/// How far a sum that begins with the index is from the index.
fn sum(rest: &[Link]) -> Result<Option<Offset>, Memory>
    ensures { IfOk result (λ o. o ≡ chain_offset (Some (pos 0)) (looks_of rest.now)) }
{
    let mut sum = Some(0);
    for link in rest {
        sum = shifted(link.op, sum, ordinary(manifest(&link.operand)))?;
    }
    Ok(sum)
}

/// How far an expression is from the index; want of memory too where a sum has no room, which none of a program does.
pub fn offset(expr: &Expr, index: &Name) -> Result<Option<Offset>, Memory>
    ensures { IfOk result (λ o. o ≡ (look_of expr.now).offset index.now) }
{
    match expr.node.get() {
        Node::Name { name } => {
            if *name == *index {
                Ok(Some(0))
            } else {
                Ok(None)
            }
        }
        Node::Parens { of } => offset(of, index),
        Node::Chain { first, rest } => {
            if is_sum(rest.as_slice()) && is_name(first, index) {
                Ok(sum(rest.as_slice())?)
            } else {
                Ok(None)
            }
        }
        _ => Ok(None),
    }
}
