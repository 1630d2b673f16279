//! Expressions without operators, but for those with words of their own.
ghost use Rattle.std.specs.Prelude.{◌≡◌, ◌<◌, IfOk};
ghost use Rattle.df_values.specs.declared.values.Basic.TheVariants as basic;
ghost use Rattle.df_syntax.specs.declared.tree.Node.TheVariants as variant;
ghost use Rattle.df_syntax.specs.Grammar as line;
ghost use Rattle.df_syntax.specs.Lines as read;
ghost use Rattle.df_syntax.specs.Reading.{reads};
ghost use Rattle.df_grammar.specs.Nests.{Nests};
ghost use Rattle.df_cursor.specs.Reads.{Reads};

use crate::descent::{Descent, node};
use df_cursor::cursor::Cursor;
use df_cursor::error::ParseError;
use df_io::Place;
use df_syntax::symbol::Symbol;
use df_syntax::tree::{Expr, Node};
use df_syntax::word::Reserved;
use df_values::name::Name;
use df_values::values::{Basic, ErrorValue};
use sqlite_items::Items;
use std::alloc::{AllocError, Global};

/// An element of an array, or the array with one more element.
fn indexed(name: Name, at: Expr, value: Option<Expr>) -> Node
    ensures { result ≡ read.indexed (at, value) name }
{
    match value {
        None => Node::Access { name, at },
        Some(value) => Node::Update { name, at, value },
    }
}

/// An error value that is an integer alone.
fn integer_error(alloc: Global, place: Place, value: ErrorValue) -> Result<Expr, AllocError>
    ensures { IfOk result (λ e. e ≡ line.made_at place (variant.Error value basic.Integer)) }
{
    node(
        alloc,
        place,
        Node::Error {
            value,
            basic: Basic::Integer,
        },
    )
}

impl<F> Descent<F> {
    /// A number or a truth value.
    #[tactic(auto, unfolding(df_syntax::specs::Grammar::literal, df_forms::specs::Reading::read, df_cursor::specs::Reads::opened))]
    pub fn literal(&self, tokens: &mut Cursor<'_>) -> Result<Expr, ParseError>
        ensures { Reads (reads self.now.depth 0 line.literal tokens.old.rest.now) tokens.old.rest.now result tokens.new.rest.now }
    {
        if tokens.sees_number() {
            let (token, value) = tokens.take_number()?;
            Ok(node(self.alloc, token.place, Node::Number { value })?)
        } else if tokens.sees_word(Reserved::True) {
            let token = tokens.take_word(Reserved::True)?;
            Ok(node(self.alloc, token.place, Node::Truth { value: true })?)
        } else {
            let token = tokens.take_word(Reserved::False)?;
            Ok(node(self.alloc, token.place, Node::Truth { value: false })?)
        }
    }

    /// A basic type in brackets.
    pub fn of_basic(&self, tokens: &mut Cursor<'_>, level: usize) -> Result<Basic, ParseError>
        ensures { Reads (reads self.now.depth level line.of_basic tokens.old.rest.now) tokens.old.rest.now result tokens.new.rest.now }
    {
        tokens.open_symbol(Symbol::LeftBracket, level, self.depth)?;
        let basic = self.basic_type(tokens)?;
        tokens.take_symbol(Symbol::RightBracket)?;
        Ok(basic)
    }

    /// An error value that is written with its type.
    #[tactic(auto, unfolding(df_syntax::specs::Grammar::typed_error, df_forms::specs::Reading::read, df_cursor::specs::Reads::opened))]
    pub fn typed_error(&self, tokens: &mut Cursor<'_>) -> Result<Expr, ParseError>
        ensures { Reads (reads self.now.depth 0 line.typed_error tokens.old.rest.now) tokens.old.rest.now result tokens.new.rest.now }
    {
        let (token, value) = if tokens.sees_word(Reserved::Undef) {
            (tokens.take_word(Reserved::Undef)?, ErrorValue::Undef)
        } else {
            (tokens.take_word(Reserved::MissElt)?, ErrorValue::MissElt)
        };
        let basic = self.of_basic(tokens, 0)?;
        Ok(node(self.alloc, token.place, Node::Error { value, basic })?)
    }

    /// An error value that is an integer alone.
    #[tactic(auto, unfolding(df_syntax::specs::Grammar::integer_error, df_forms::specs::Reading::read, df_cursor::specs::Reads::opened))]
    pub fn integer_error(&self, tokens: &mut Cursor<'_>) -> Result<Expr, ParseError>
        ensures { Reads (reads self.now.depth 0 line.integer_error tokens.old.rest.now) tokens.old.rest.now result tokens.new.rest.now }
    {
        if tokens.sees_word(Reserved::PosOver) {
            let token = tokens.take_word(Reserved::PosOver)?;
            Ok(integer_error(self.alloc, token.place, ErrorValue::PosOver)?)
        } else if tokens.sees_word(Reserved::NegOver) {
            let token = tokens.take_word(Reserved::NegOver)?;
            Ok(integer_error(self.alloc, token.place, ErrorValue::NegOver)?)
        } else if tokens.sees_word(Reserved::Unknown) {
            let token = tokens.take_word(Reserved::Unknown)?;
            Ok(integer_error(self.alloc, token.place, ErrorValue::Unknown)?)
        } else {
            let token = tokens.take_word(Reserved::ZeroDivide)?;
            Ok(integer_error(self.alloc, token.place, ErrorValue::ZeroDivide)?)
        }
    }
}

impl<F: Fn(Global, &mut Cursor<'_>, usize) -> Result<Expr, ParseError>> Descent<F> {
    /// What stands in brackets behind a name, and behind its colon.
    #[tactic(auto, unfolding(df_syntax::specs::Lines::index, df_forms::specs::Reading::read, df_cursor::specs::Reads::opened))]
    pub fn index(&self, tokens: &mut Cursor<'_>) -> Result<(Expr, Option<Expr>), ParseError>
        requires { Nests self.now.depth (F.pre self.now.expr) (F.post self.now.expr) }
        ensures { Reads (reads self.now.depth 0 read.index tokens.old.rest.now) tokens.old.rest.now result tokens.new.rest.now }
    {
        tokens.open_symbol(Symbol::LeftBracket, 0, self.depth)?;
        let at = self.again(tokens, 1)?;
        let value = if tokens.sees_symbol(Symbol::Colon) {
            tokens.take_symbol(Symbol::Colon)?;
            Some(self.again(tokens, 1)?)
        } else {
            None
        };
        tokens.take_symbol(Symbol::RightBracket)?;
        Ok((at, value))
    }

    /// The arguments of a call, in parentheses.
    pub fn actuals(&self, tokens: &mut Cursor<'_>) -> Result<Items<Expr>, ParseError>
        requires { Nests self.now.depth (F.pre self.now.expr) (F.post self.now.expr) }
        ensures { Reads (reads self.now.depth 0 read.actuals tokens.old.rest.now) tokens.old.rest.now result tokens.new.rest.now }
    {
        tokens.open_symbol(Symbol::LeftParen, 0, self.depth)?;
        let arguments = self.arguments(tokens)?;
        tokens.take_symbol(Symbol::RightParen)?;
        Ok(arguments)
    }

    /// A name, and what stands behind it.
    #[tactic(auto, using(crate::proofs::Firsts::first_index, crate::proofs::Firsts::first_actuals), unfolding(df_syntax::specs::Lines::named, df_syntax::specs::Lines::suffix, df_forms::specs::Reading::read, df_cursor::specs::Reads::opened))]
    pub fn named(&self, tokens: &mut Cursor<'_>) -> Result<Expr, ParseError>
        requires { Nests self.now.depth (F.pre self.now.expr) (F.post self.now.expr) }
        ensures { Reads (reads self.now.depth 0 read.named tokens.old.rest.now) tokens.old.rest.now result tokens.new.rest.now }
    {
        let (token, name) = tokens.take_name()?;
        let made = if tokens.sees_symbol(Symbol::LeftBracket) {
            let (at, value) = self.index(tokens)?;
            indexed(name, at, value)
        } else if tokens.sees_symbol(Symbol::LeftParen) {
            let arguments = self.actuals(tokens)?;
            Node::Call { name, arguments }
        } else {
            Node::Name { name }
        };
        Ok(node(self.alloc, token.place, made)?)
    }

    /// An expression in parentheses.
    pub fn parens(&self, tokens: &mut Cursor<'_>) -> Result<Expr, ParseError>
        requires { Nests self.now.depth (F.pre self.now.expr) (F.post self.now.expr) }
        ensures { Reads (reads self.now.depth 0 line.parens tokens.old.rest.now) tokens.old.rest.now result tokens.new.rest.now }
    {
        let token = tokens.open_symbol(Symbol::LeftParen, 0, self.depth)?;
        let of = self.again(tokens, 1)?;
        tokens.take_symbol(Symbol::RightParen)?;
        Ok(node(self.alloc, token.place, Node::Parens { of })?)
    }

    /// `mod`, `min` or `max` of two expressions.
    pub fn two_place(&self, tokens: &mut Cursor<'_>) -> Result<Expr, ParseError>
        requires { Nests self.now.depth (F.pre self.now.expr) (F.post self.now.expr) }
        ensures { Reads (reads self.now.depth 0 line.two_place tokens.old.rest.now) tokens.old.rest.now result tokens.new.rest.now }
    {
        let (token, op) = self.two_place_op(tokens)?;
        tokens.open_symbol(Symbol::LeftParen, 0, self.depth)?;
        let left = self.again(tokens, 1)?;
        tokens.take_symbol(Symbol::Comma)?;
        let right = self.again(tokens, 1)?;
        tokens.take_symbol(Symbol::RightParen)?;
        Ok(node(self.alloc, token.place, Node::TwoPlace { op, left, right })?)
    }

    /// A test of an expression.
    pub fn test_of(&self, tokens: &mut Cursor<'_>) -> Result<Expr, ParseError>
        requires { Nests self.now.depth (F.pre self.now.expr) (F.post self.now.expr) }
        ensures { Reads (reads self.now.depth 0 line.test_of tokens.old.rest.now) tokens.old.rest.now result tokens.new.rest.now }
    {
        let token = tokens.take_word(Reserved::Is)?;
        let test = self.tested(tokens)?;
        tokens.open_symbol(Symbol::LeftParen, 0, self.depth)?;
        let of = self.again(tokens, 1)?;
        tokens.take_symbol(Symbol::RightParen)?;
        Ok(node(self.alloc, token.place, Node::Test { test, of })?)
    }

    /// An array of one element.
    pub fn one_element(&self, tokens: &mut Cursor<'_>) -> Result<Expr, ParseError>
        requires { Nests self.now.depth (F.pre self.now.expr) (F.post self.now.expr) }
        ensures { Reads (reads self.now.depth 0 line.one_element tokens.old.rest.now) tokens.old.rest.now result tokens.new.rest.now }
    {
        let token = tokens.open_symbol(Symbol::LeftBracket, 0, self.depth)?;
        let at = self.again(tokens, 1)?;
        tokens.take_symbol(Symbol::Colon)?;
        let value = self.again(tokens, 1)?;
        tokens.take_symbol(Symbol::RightBracket)?;
        Ok(node(self.alloc, token.place, Node::Array { at, value })?)
    }
}
