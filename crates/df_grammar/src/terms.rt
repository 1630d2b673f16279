//! Expressions with operators.
ghost use Rattle.std.specs.Prelude.{◌≡◌, ◌<◌, IfOk};
ghost use Rattle.df_syntax.specs.Grammar as line;
ghost use Rattle.df_syntax.specs.Lines as read;
ghost use Rattle.df_syntax.specs.Reading.{reads};
ghost use Rattle.df_grammar.specs.Nests.{Nests};
ghost use Rattle.df_grammar.specs.Parts as part;
ghost use Rattle.df_cursor.specs.Reads.{Reads};

use crate::descent::{Descent, chain, node};
use df_cursor::cursor::Cursor;
use df_cursor::error::ParseError;
use df_syntax::symbol::Symbol;
use df_syntax::tree::{Expr, Link, Node};
use df_syntax::word::Reserved;
use df_values::kinds::{Op, Rel};
use sqlite_items::Items;
use std::alloc::{AllocError, Global};

/// One operand, or two and the comparison between them.
fn compared(alloc: Global, left: Expr, right: Option<(Rel, Expr)>) -> Result<Expr, AllocError>
    ensures { IfOk result (λ e. e ≡ line.compared left right) }
{
    match right {
        None => Ok(left),
        Some((rel, right)) => {
            let place = left.place;
            node(alloc, place, Node::Compare { rel, left, right })
        }
    }
}

impl<F: Fn(Global, &mut Cursor<'_>, usize) -> Result<Expr, ParseError>> Descent<F> {
    /// An expression that begins with a word or a bracket of its own.
    #[tactic(auto, using(crate::proofs::Firsts::first_parens, crate::proofs::Firsts::first_test_of, crate::proofs::Firsts::first_one_element, crate::proofs::Firsts::first_block, crate::proofs::Firsts::first_choice, crate::proofs::Firsts::first_all_indices), unfolding(df_syntax::specs::Lines::others, df_forms::specs::Reading::read, df_cursor::specs::Reads::opened))]
    pub fn other(&self, tokens: &mut Cursor<'_>) -> Result<Expr, ParseError>
        requires { Nests self.now.depth (F.pre self.now.expr) (F.post self.now.expr) }
        ensures { Reads (reads self.now.depth 0 read.others tokens.old.rest.now) tokens.old.rest.now result tokens.new.rest.now }
    {
        if tokens.sees_symbol(Symbol::LeftParen) {
            self.parens(tokens)
        } else if tokens.begins_two_place() {
            self.two_place(tokens)
        } else if tokens.sees_word(Reserved::Is) {
            self.test_of(tokens)
        } else if tokens.sees_symbol(Symbol::LeftBracket) {
            self.one_element(tokens)
        } else if tokens.sees_word(Reserved::Let) {
            self.block(tokens)
        } else if tokens.sees_word(Reserved::If) {
            self.choice(tokens)
        } else if tokens.sees_word(Reserved::ForAll) {
            self.all_indices(tokens)
        } else {
            self.for_loop(tokens)
        }
    }

    /// An expression without operators.
    #[tactic(auto, using(crate::proofs::Firsts::first_named), unfolding(df_syntax::specs::Lines::primary, df_forms::specs::Reading::read, df_cursor::specs::Reads::opened))]
    pub fn primary(&self, tokens: &mut Cursor<'_>) -> Result<Expr, ParseError>
        requires { Nests self.now.depth (F.pre self.now.expr) (F.post self.now.expr) }
        ensures { Reads (reads self.now.depth 0 read.primary tokens.old.rest.now) tokens.old.rest.now result tokens.new.rest.now }
    {
        if tokens.begins_literal() {
            self.literal(tokens)
        } else if tokens.begins_typed_error() {
            self.typed_error(tokens)
        } else if tokens.begins_integer_error() {
            self.integer_error(tokens)
        } else if tokens.sees_name() {
            self.named(tokens)
        } else {
            self.other(tokens)
        }
    }

    /// An operand of a product.
    #[tactic(auto, unfolding(df_syntax::specs::Lines::factor, df_forms::specs::Reading::read, df_cursor::specs::Reads::opened))]
    pub fn factor(&self, tokens: &mut Cursor<'_>) -> Result<Expr, ParseError>
        requires { Nests self.now.depth (F.pre self.now.expr) (F.post self.now.expr) }
        ensures { Reads (reads self.now.depth 0 read.factor tokens.old.rest.now) tokens.old.rest.now result tokens.new.rest.now }
    {
        if tokens.sees_symbol(Symbol::Minus) {
            let token = tokens.take_symbol(Symbol::Minus)?;
            let of = self.primary(tokens)?;
            Ok(node(self.alloc, token.place, Node::Negate { of })?)
        } else {
            self.primary(tokens)
        }
    }

    /// An operator of a product and its right operand.
    pub fn factor_link(&self, tokens: &mut Cursor<'_>) -> Result<Link, ParseError>
        requires { Nests self.now.depth (F.pre self.now.expr) (F.post self.now.expr) }
        ensures { Reads (reads self.now.depth 0 read.factor_link tokens.old.rest.now) tokens.old.rest.now result tokens.new.rest.now }
    {
        let op = self.factor_op(tokens)?;
        let operand = self.factor(tokens)?;
        Ok(Link { op, operand })
    }

    /// A product.
    #[tactic(auto, using(crate::proofs::Levels::level_factor, df_cursor::proofs::Firsts::first_factor_link), unfolding(df_syntax::specs::Lines::term, df_forms::specs::Reading::read, df_cursor::specs::Reads::opened))]
    pub fn term(&self, tokens: &mut Cursor<'_>) -> Result<Expr, ParseError>
        requires { Nests self.now.depth (F.pre self.now.expr) (F.post self.now.expr) }
        ensures { Reads (reads self.now.depth 0 read.term tokens.old.rest.now) tokens.old.rest.now result tokens.new.rest.now }
    {
        let first = self.factor(tokens)?;
        let mut rest = Items::new(self.alloc);
        'links: while tokens.begins_factor_link() {
            rest.push(self.factor_link(tokens)?)?;
        }
        Ok(chain(self.alloc, first, rest)?)
    }

    /// An operator of a sum and its right operand.
    pub fn term_link(&self, tokens: &mut Cursor<'_>) -> Result<Link, ParseError>
        requires { Nests self.now.depth (F.pre self.now.expr) (F.post self.now.expr) }
        ensures { Reads (reads self.now.depth 0 read.term_link tokens.old.rest.now) tokens.old.rest.now result tokens.new.rest.now }
    {
        let op = self.term_op(tokens)?;
        let operand = self.term(tokens)?;
        Ok(Link { op, operand })
    }

    /// A sum.
    #[tactic(auto, using(crate::proofs::Levels::level_term, df_cursor::proofs::Firsts::first_term_link), unfolding(df_syntax::specs::Lines::sum, df_forms::specs::Reading::read, df_cursor::specs::Reads::opened))]
    pub fn sum(&self, tokens: &mut Cursor<'_>) -> Result<Expr, ParseError>
        requires { Nests self.now.depth (F.pre self.now.expr) (F.post self.now.expr) }
        ensures { Reads (reads self.now.depth 0 read.sum tokens.old.rest.now) tokens.old.rest.now result tokens.new.rest.now }
    {
        let first = self.term(tokens)?;
        let mut rest = Items::new(self.alloc);
        'links: while tokens.begins_term_link() {
            rest.push(self.term_link(tokens)?)?;
        }
        Ok(chain(self.alloc, first, rest)?)
    }

    /// A sum, or two and the comparison between them.
    #[tactic(auto, using(crate::proofs::Levels::level_sum, crate::proofs::Levels::level_comparison_0, crate::proofs::Firsts::first_compared), unfolding(df_syntax::specs::Lines::relation, df_forms::specs::Reading::read, df_cursor::specs::Reads::opened))]
    pub fn relation(&self, tokens: &mut Cursor<'_>) -> Result<Expr, ParseError>
        requires { Nests self.now.depth (F.pre self.now.expr) (F.post self.now.expr) }
        ensures { Reads (reads self.now.depth 0 read.relation tokens.old.rest.now) tokens.old.rest.now result tokens.new.rest.now }
    {
        let left = self.sum(tokens)?;
        let right = if tokens.begins_comparison() {
            let rel = self.comparison(tokens)?;
            Some((rel, self.sum(tokens)?))
        } else {
            None
        };
        Ok(compared(self.alloc, left, right)?)
    }

    /// An operand of `&`.
    #[tactic(auto, unfolding(df_syntax::specs::Lines::inversion, df_forms::specs::Reading::read, df_cursor::specs::Reads::opened))]
    pub fn inversion(&self, tokens: &mut Cursor<'_>) -> Result<Expr, ParseError>
        requires { Nests self.now.depth (F.pre self.now.expr) (F.post self.now.expr) }
        ensures { Reads (reads self.now.depth 0 read.inversion tokens.old.rest.now) tokens.old.rest.now result tokens.new.rest.now }
    {
        if tokens.sees_symbol(Symbol::Tilde) {
            let token = tokens.take_symbol(Symbol::Tilde)?;
            let of = self.relation(tokens)?;
            Ok(node(self.alloc, token.place, Node::Invert { of })?)
        } else {
            self.relation(tokens)
        }
    }

    /// `&` and its right operand.
    pub fn inversion_link(&self, tokens: &mut Cursor<'_>) -> Result<Link, ParseError>
        requires { Nests self.now.depth (F.pre self.now.expr) (F.post self.now.expr) }
        ensures { Reads (reads self.now.depth 0 read.inversion_link tokens.old.rest.now) tokens.old.rest.now result tokens.new.rest.now }
    {
        tokens.take_symbol(Symbol::Ampersand)?;
        let operand = self.inversion(tokens)?;
        Ok(Link {
            op: Op::And,
            operand,
        })
    }

    /// Operands of `&`.
    #[tactic(auto, using(crate::proofs::Levels::level_inversion, crate::proofs::Firsts::first_inversion_link), unfolding(df_syntax::specs::Lines::conjunction, df_forms::specs::Reading::read, df_cursor::specs::Reads::opened))]
    pub fn conjunction(&self, tokens: &mut Cursor<'_>) -> Result<Expr, ParseError>
        requires { Nests self.now.depth (F.pre self.now.expr) (F.post self.now.expr) }
        ensures { Reads (reads self.now.depth 0 read.conjunction tokens.old.rest.now) tokens.old.rest.now result tokens.new.rest.now }
    {
        let first = self.inversion(tokens)?;
        let mut rest = Items::new(self.alloc);
        'links: while tokens.sees_symbol(Symbol::Ampersand) {
            rest.push(self.inversion_link(tokens)?)?;
        }
        Ok(chain(self.alloc, first, rest)?)
    }

    /// `|` and its right operand.
    pub fn conjunction_link(&self, tokens: &mut Cursor<'_>) -> Result<Link, ParseError>
        requires { Nests self.now.depth (F.pre self.now.expr) (F.post self.now.expr) }
        ensures { Reads (reads self.now.depth 0 read.conjunction_link tokens.old.rest.now) tokens.old.rest.now result tokens.new.rest.now }
    {
        tokens.take_symbol(Symbol::Bar)?;
        let operand = self.conjunction(tokens)?;
        Ok(Link {
            op: Op::Or,
            operand,
        })
    }

    /// Any expression.
    #[tactic(auto, using(crate::proofs::Levels::level_conjunction, crate::proofs::Firsts::first_conjunction_link), unfolding(df_syntax::specs::Lines::expr, df_forms::specs::Reading::read, df_cursor::specs::Reads::opened))]
    pub fn whole(&self, tokens: &mut Cursor<'_>) -> Result<Expr, ParseError>
        requires { Nests self.now.depth (F.pre self.now.expr) (F.post self.now.expr) }
        ensures { Reads (reads self.now.depth 0 read.expr tokens.old.rest.now) tokens.old.rest.now result tokens.new.rest.now }
    {
        let first = self.conjunction(tokens)?;
        let mut rest = Items::new(self.alloc);
        'links: while tokens.sees_symbol(Symbol::Bar) {
            rest.push(self.conjunction_link(tokens)?)?;
        }
        Ok(chain(self.alloc, first, rest)?)
    }
}

/// An expression in which so many brackets may be open.
pub fn expr(alloc: Global, tokens: &mut Cursor<'_>, depth: usize) -> Result<Expr, ParseError>
    ensures { Reads (reads depth 0 read.expr tokens.old.rest.now) tokens.old.rest.now result tokens.new.rest.now }
{
    Descent { alloc, depth, expr }.whole(tokens)
}
