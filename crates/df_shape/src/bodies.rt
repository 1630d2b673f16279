//! What makes the value of a definition or a result.
ghost use Rattle.std.specs.Prelude.{◌≡◌, IfOk};
ghost use Rattle.df_names.specs.Found.{names_of};
ghost use Rattle.df_syntax.specs.SourceForms.{form, recurrence_of};
ghost use Rattle.df_shape.specs.Renamed.{renamed};
ghost use Rattle.df_syntax.specs.declared.piped.Body.TheVariants as body;
ghost use Rattle.df_shape.specs.Shaped.{body_of, scalar_body, array_body, recurrence_body};
ghost use Rattle.df_shape.specs.Bounded.{IsBounded, HasBounds};

use crate::extents::between;
use crate::forms::{Recurrence, as_recurrence, bare};
use crate::renaming::renamed;
use crate::standing::Standing;
use df_names::NameMap;
use df_syntax::piped::Body;
use df_syntax::tree::{Expr, Node, Sort};
use df_values::inputs::Extent;
use df_values::memory::Memory;
use df_values::values::Integer;
use std::alloc::Global;

/// What makes bodies of blocks from expressions.
#[derive(Clone, Copy)]
pub(crate) struct Bodies<'a> {
    /// Where memory comes from.
    pub alloc: Global,
    /// The numbers of the constants.
    pub numbers: &'a NameMap<Integer>,
    /// What the names stand for.
    pub names: &'a NameMap<Standing>,
}

impl Bodies<'_> {
    /// What makes a value of this type.
    pub fn body(&self, sort: Sort, expr: &Expr) -> Result<Body, Memory>
        ensures body { IfOk result (λ b. b ≡ body_of (names_of self.now.numbers.now) (names_of self.now.names.now) sort expr.now) }
        ensures bounds { IfOk result HasBounds }
    {
        match sort {
            Sort::Basic(_) => self.scalar(expr),
            Sort::Array(_) => self.array(expr),
        }
    }

    /// What makes a scalar: a fold, or an expression.
    fn scalar(&self, expr: &Expr) -> Result<Body, Memory>
        ensures body { IfOk result (λ b. b ≡ scalar_body (names_of self.now.numbers.now) (names_of self.now.names.now) expr.now (form expr.now)) }
        ensures bounds { IfOk result HasBounds }
    {
        match bare(expr).node.get() {
            Node::Fold {
                index,
                low,
                high,
                op,
                elem,
            } => match between(self.numbers, low, high)? {
                Some(range) => Ok(Body::Fold {
                    index: index.name,
                    op: *op,
                    lo: range.lo,
                    n: range.n,
                    elem: self.copy(elem)?,
                }),
                None => self.plain(expr),
            },
            _ => self.plain(expr),
        }
    }

    /// What makes an array: an element for each index, or a recurrence.
    fn array(&self, expr: &Expr) -> Result<Body, Memory>
        ensures body { IfOk result (λ b. b ≡ array_body (names_of self.now.numbers.now) (names_of self.now.names.now) expr.now (form expr.now)) }
        ensures bounds { IfOk result HasBounds }
    {
        match bare(expr).node.get() {
            Node::Construct {
                index,
                low,
                high,
                elem,
            } => match between(self.numbers, low, high)? {
                Some(range) => Ok(Body::Construct {
                    index: index.name,
                    lo: range.lo,
                    n: range.n,
                    elem: self.copy(elem)?,
                }),
                None => self.plain(expr),
            },
            _ => self.recurrence(expr),
        }
    }

    /// What makes an array by a recurrence.
    fn recurrence(&self, expr: &Expr) -> Result<Body, Memory>
        ensures body { IfOk result (λ b. b ≡ recurrence_body (names_of self.now.numbers.now) (names_of self.now.names.now) expr.now (recurrence_of (form expr.now))) }
        ensures bounds { IfOk result HasBounds }
    {
        match as_recurrence(expr) {
            Some(parts) => match between(self.numbers, parts.low, parts.high)? {
                Some(range) => self.recurring(&parts, range),
                None => self.plain(expr),
            },
            None => self.plain(expr),
        }
    }

    /// A recurrence over a range. There is no room for a first element before the least index.
    fn recurring(&self, parts: &Recurrence<'_>, range: Extent) -> Result<Body, Memory>
        requires { IsBounded range.lo range.n }
        ensures body { IfOk result (λ b. b ≡ body.Recur parts.now.index.now parts.now.array.now range.lo range.n (renamed (names_of self.now.names.now) parts.now.first.now) (renamed (names_of self.now.names.now) parts.now.elem.now)) }
        ensures bounds { IfOk result HasBounds }
    {
        if range.lo == Integer::MIN {
            return Err(Memory);
        }
        Ok(Body::Recur {
            index: *parts.index,
            array: *parts.array,
            lo: range.lo,
            n: range.n,
            first: self.copy(parts.first)?,
            elem: self.copy(parts.elem)?,
        })
    }

    /// The expression alone.
    fn plain(&self, expr: &Expr) -> Result<Body, Memory>
        ensures body { IfOk result (λ b. b ≡ body.Scalar (renamed (names_of self.now.names.now) expr.now)) }
        ensures bounds { IfOk result HasBounds }
    {
        Ok(Body::Scalar {
            expr: self.copy(expr)?,
        })
    }

    /// An expression in blocks.
    fn copy(&self, expr: &Expr) -> Result<Expr, Memory>
        ensures { IfOk result (λ e. e ≡ renamed (names_of self.now.names.now) expr.now) }
    {
        renamed(self.alloc, self.names, expr)
    }
}
