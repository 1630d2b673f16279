//! Expressions whose values are known before any input.
ghost use Rattle.std.specs.Prelude.{◌≡◌};
ghost use Rattle.std.specs.List.{list_all};
ghost use Rattle.df_values.specs.Tables.{answer, negation};
ghost use Rattle.df_syntax.specs.declared.tree.Link.{Link as OneLink};
ghost use Rattle.df_syntax.specs.Meaning.{both, each};
ghost use Rattle.df_syntax.specs.MeaningParts.{joined_by};
ghost use Rattle.df_syntax.specs.SourceForms.{is_arithmetic, number_value, manifest_value, manifest};
ghost use Rattle.df_names.specs.Found.{names_of};

use df_names::NameMap;
use df_syntax::tree::{Expr, Link, Node};
use df_values::kinds::Op;
use df_values::operators::{apply, negate};
use df_values::values::{Integer, Value};

/// The value of an expression that is built from literals, constants, unary minus, `+ - * /`, `mod`, `min`, `max` and
/// parentheses; of any other expression nothing.
#[cycle(manifest)]
#[tactic(auto, using(crate::proofs::Manifests::forms))]
pub(crate) fn manifest_value(numbers: &NameMap<Integer>, expr: &Expr) -> Option<Value>
    ensures { result ≡ manifest_value (names_of numbers.now) expr.now }
{
    match expr.node.get() {
        Node::Number { value } => Some(Value::Int(*value)),
        Node::Truth { value } => Some(Value::Truth(*value)),
        Node::Error { value, .. } => Some(Value::Error(*value)),
        Node::Name { name } => whole(numbers.get(name)),
        Node::Chain { first, rest } => {
            if !is_arithmetic(rest.as_slice()) {
                return None;
            }
            let first = manifest_value(numbers, first);
            joined(numbers, first, rest.as_slice())
        }
        Node::Negate { of } => negated(manifest_value(numbers, of)),
        Node::Parens { of } => manifest_value(numbers, of),
        Node::TwoPlace { op, left, right } => {
            let left = manifest_value(numbers, left);
            join(*op, left, manifest_value(numbers, right))
        }
        _ => None,
    }
}

/// A chain from the value of its first operand on.
#[cycle(manifest)]
fn joined(numbers: &NameMap<Integer>, first: Option<Value>, rest: &[Link]) -> Option<Value>
    ensures { result ≡ joined_by (manifest_value (names_of numbers.now)) first rest.now }
{
    let mut joined = first;
    for link in rest {
        joined = join(link.op, joined, manifest_value(numbers, &link.operand));
    }
    joined
}

/// The number that a manifest expression stands for, where it is ordinary.
pub(crate) fn manifest(numbers: &NameMap<Integer>, expr: &Expr) -> Option<Integer>
    ensures { result ≡ manifest (names_of numbers.now) expr.now }
{
    match manifest_value(numbers, expr) {
        Some(Value::Int(number)) => Some(number),
        _ => None,
    }
}

/// Whether the operators of a chain are `+ - * /`.
fn is_arithmetic(rest: &[Link]) -> bool
    ensures { result ≡ list_all (λ (l : OneLink). is_arithmetic l.op) rest.now }
{
    rest.iter().all(|link| !matches!(link.op, Op::And | Op::Or))
}

/// A number as a value.
fn whole(number: Option<Integer>) -> Option<Value>
    ensures { result ≡ number_value number }
{
    match number {
        Some(k) => Some(Value::Int(k)),
        None => None,
    }
}

/// The answer of an operator.
fn join(op: Op, left: Option<Value>, right: Option<Value>) -> Option<Value>
    ensures { result ≡ both (answer op) left right }
{
    match (left, right) {
        (Some(a), Some(b)) => Some(apply(op, a, b)),
        _ => None,
    }
}

/// The answer of unary minus.
fn negated(of: Option<Value>) -> Option<Value>
    ensures { result ≡ each negation of }
{
    match of {
        Some(a) => Some(negate(a)),
        None => None,
    }
}
