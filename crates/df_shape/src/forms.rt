//! What expressions are, read through parentheses.
ghost use Rattle.std.specs.Prelude.{◌≡◌, ◌&&◌, bytes_eq};
ghost use Rattle.df_syntax.specs.SourceForms.{bare, form, is_name, is_let, is_array, is_integer, is_addition, is_one, is_next, is_recurrence, recurrence_by, recurrence_of, one_element, at_most, one_more};
ghost use Rattle.df_shape.specs.Read.{recurrence_read, pair_read, triple_read};

use crate::naming::names_it;
use df_syntax::tree::{Assign, Definition, Expr, Node, Sort};
use df_values::kinds::{Op, Rel};
use df_values::name::Name;
use df_values::values::Basic;

/// The parts of
///
/// ```text
/// for i : integer := LOW; T : array[..] := [BEFORE : FIRST] do
///   if i <= HIGH then iter T := T[i : ELEM]; i := i + 1 enditer else T endif endfor
/// ```
#[derive(Clone, Copy)]
pub(crate) struct Recurrence<'a> {
    /// `i`
    pub index: &'a Name,
    /// `T`
    pub array: &'a Name,
    /// The lowest index.
    pub low: &'a Expr,
    /// The index of the first element.
    pub before: &'a Expr,
    /// The first element.
    pub first: &'a Expr,
    /// The highest index.
    pub high: &'a Expr,
    /// The element at an index.
    pub elem: &'a Expr,
}

/// An expression without the parentheses around it.
#[tactic(auto, using(crate::proofs::Bare::parens))]
pub(crate) fn bare(expr: &Expr) -> &Expr
    ensures { result.now ≡ bare expr.now }
{
    match expr.node.get() {
        Node::Parens { of } => bare(of),
        _ => expr,
    }
}

/// Whether an expression is this name.
pub(crate) fn is_name(name: &Name, expr: &Expr) -> bool
    ensures { result ≡ is_name name.now expr.now }
{
    match bare(expr).node.get() {
        Node::Name { name: other } => name == other,
        _ => false,
    }
}

/// Whether an expression is a `let`.
pub(crate) fn is_let(expr: &Expr) -> bool
    ensures { result ≡ is_let (form expr.now) }
{
    match bare(expr).node.get() {
        Node::Let { .. } => true,
        _ => false,
    }
}

/// Whether a type is that of arrays.
pub(crate) fn is_array(sort: Sort) -> bool
    ensures { result ≡ is_array sort }
{
    match sort {
        Sort::Array(_) => true,
        Sort::Basic(_) => false,
    }
}

/// Whether a type is that of integers.
fn is_integer(sort: Sort) -> bool
    ensures { result ≡ is_integer sort }
{
    match sort {
        Sort::Basic(Basic::Integer) => true,
        _ => false,
    }
}

/// The parts of `[at : value]`.
fn one_element(expr: &Expr) -> Option<(&Expr, &Expr)>
    ensures { pair_read result ≡ one_element (form expr.now) }
{
    match bare(expr).node.get() {
        Node::Array { at, value } => Some((at, value)),
        _ => None,
    }
}

/// The parts of `left <= right`.
fn at_most(expr: &Expr) -> Option<(&Expr, &Expr)>
    ensures { pair_read result ≡ at_most (form expr.now) }
{
    match bare(expr).node.get() {
        Node::Compare { rel, left, right } => match rel {
            Rel::Le => Some((left, right)),
            _ => None,
        },
        _ => None,
    }
}

/// The parts of `name[at : value]`.
fn one_more(expr: &Expr) -> Option<(&Name, &Expr, &Expr)>
    ensures { triple_read result ≡ one_more (form expr.now) }
{
    match bare(expr).node.get() {
        Node::Update { name, at, value } => Some((name, at, value)),
        _ => None,
    }
}

/// Whether an expression is the number 1.
fn is_one(expr: &Expr) -> bool
    ensures { result ≡ is_one (form expr.now) }
{
    match bare(expr).node.get() {
        Node::Number { value } => *value == 1,
        _ => false,
    }
}

/// Whether an operator is `+`.
fn is_addition(op: Op) -> bool
    ensures { result ≡ is_addition op }
{
    match op {
        Op::Add => true,
        _ => false,
    }
}

/// Whether an expression is the index and 1 more.
fn is_next(index: &Name, expr: &Expr) -> bool
    ensures { result ≡ is_next index.now (form expr.now) }
{
    match bare(expr).node.get() {
        Node::Chain { first, rest } => match rest.as_slice() {
            [link] => is_name(index, first) && (is_addition(link.op) && is_one(&link.operand)),
            _ => false,
        },
        _ => false,
    }
}

/// Whether an assignment with such a value, `name[at : ..]`, is the one that makes the array of a recurrence longer.
fn is_longer(index: &Name, array: &Name, next: &Assign, update: (&Name, &Expr, &Expr)) -> bool
    ensures { result ≡ (bytes_eq array.now next.now.name.name && (bytes_eq array.now update.entry.0.now && is_name index.now update.entry.1.now)) }
{
    array == &next.name.name && (array == update.0 && is_name(index, update.1))
}

/// Whether an assignment makes the index of a recurrence greater by 1.
fn is_step(index: &Name, step: &Assign) -> bool
    ensures { result ≡ (bytes_eq index.now step.now.name.name && is_next index.now (form step.now.value)) }
{
    index == &step.name.name && is_next(index, &step.value)
}

/// The parts of a loop with two definitions and two assignments, if it is a recurrence.
fn recurrence_by<'a>(
    index: &'a Definition,
    array: &'a Definition,
    test: &'a Expr,
    next: &'a Assign,
    step: &Assign,
    last: &Expr,
) -> Option<Recurrence<'a>>
    ensures { recurrence_read result ≡ recurrence_by index.now array.now next.now step.now last.now (one_element (form array.now.value)) (at_most (form test.now)) (one_more (form next.now.value)) }
{
    let i = &index.name.name;
    let t = &array.name.name;
    let first = one_element(&array.value)?;
    let limit = at_most(test)?;
    let update = one_more(&next.value)?;
    let are_named = is_integer(index.sort) && (is_array(array.sort) && is_name(i, limit.0));
    if are_named
        && is_longer(i, t, next, update)
        && is_step(i, step)
        && is_name(t, last)
        && !names_it(i, first.1)
    {
        return Some(Recurrence {
            index: i,
            array: t,
            low: &index.value,
            before: first.0,
            first: first.1,
            high: limit.1,
            elem: update.2,
        });
    }
    None
}

/// The parts of a loop that is a recurrence; of any other expression nothing.
pub(crate) fn as_recurrence(expr: &Expr) -> Option<Recurrence<'_>>
    ensures { recurrence_read result ≡ recurrence_of (form expr.now) }
{
    match bare(expr).node.get() {
        Node::For {
            definitions,
            test,
            assigns,
            last,
        } => {
            match (definitions.as_slice(), assigns.as_slice()) {
                ([index, array], [next, step]) => recurrence_by(
                    index, array, test, next, step, last,
                ),
                _ => None,
            }
        }
        _ => None,
    }
}
