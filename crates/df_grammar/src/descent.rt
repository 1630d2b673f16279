//! What all lines share: brackets, and the expressions inside them.
ghost use Rattle.std.specs.Prelude.{◌≡◌, ◌<◌, ◌≤◌, IfOk};
ghost use Rattle.df_syntax.specs.Grammar as line;
ghost use Rattle.df_syntax.specs.Reading.{deeper};
ghost use Rattle.df_grammar.specs.Nests.{Nests};
ghost use Rattle.df_cursor.specs.Reads.{Reads};

use df_cursor::cursor::Cursor;
use df_cursor::error::ParseError;
use df_io::Place;
use df_syntax::tree::{Expr, Link, Node};
use sqlite_items::{Boxed, Items};
use std::alloc::{AllocError, Global};

/// One line after the other, as methods. They take the reader of the expressions inside brackets
/// as a parameter, so that no method leads back to itself. The levels that they give count the
/// brackets of the line that are open.
#[derive(Clone, Copy)]
pub struct Descent<F> {
    /// Where trees are made.
    pub alloc: Global,
    /// How many brackets may be open.
    pub depth: usize,
    /// Reads an expression in which as many brackets may be open as it is told.
    pub expr: F,
}

/// An expression that begins at this place.
pub fn node(alloc: Global, place: Place, node: Node) -> Result<Expr, AllocError>
    ensures { IfOk result (λ e. e ≡ line.made_at place node) }
{
    Ok(Expr {
        place,
        node: Boxed::new(alloc, node)?,
    })
}

/// Operands joined from the left; the first one alone is itself.
pub fn chain(alloc: Global, first: Expr, rest: Items<Link>) -> Result<Expr, AllocError>
    ensures { IfOk result (λ e. e ≡ line.chain first rest) }
{
    if rest.is_empty() {
        return Ok(first);
    }
    let place = first.place;
    node(alloc, place, Node::Chain { first, rest })
}

impl<F: Fn(Global, &mut Cursor<'_>, usize) -> Result<Expr, ParseError>> Descent<F> {
    /// An expression inside so many brackets of the line.
    pub fn again(&self, tokens: &mut Cursor<'_>, level: usize) -> Result<Expr, ParseError>
        requires nests { Nests self.now.depth (F.pre self.now.expr) (F.post self.now.expr) }
        requires inside { 0 < level }
        requires room { level ≤ self.now.depth }
        ensures { Reads (deeper self.now.depth level tokens.old.rest.now) tokens.old.rest.now result tokens.new.rest.now }
    {
        (self.expr)(self.alloc, tokens, self.depth - level)
    }
}
