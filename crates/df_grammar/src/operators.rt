//! Lines of one token and a few more, in which no bracket opens.
ghost use Rattle.std.specs.Prelude.{◌≡◌};
ghost use Rattle.df_forms.specs.OneToken.{first};
ghost use Rattle.df_forms.specs.Reading.{sees};
ghost use Rattle.df_syntax.specs.Grammar as line;
ghost use Rattle.df_syntax.specs.Lines.{start};
ghost use Rattle.df_syntax.specs.TokenClasses.{class};
ghost use Rattle.df_syntax.specs.Reading.{reads};
ghost use Rattle.df_cursor.specs.Reads.{Reads, plain};

use crate::descent::Descent;
use df_cursor::cursor::Cursor;
use df_cursor::error::ParseError;
use df_syntax::symbol::Symbol;
use df_syntax::token::Token;
use df_syntax::tree::Named;
use df_syntax::word::Reserved;
use df_values::kinds::{Op, Rel, Test};
use df_values::values::Basic;

impl<F> Descent<F> {
    /// A name where it is bound, inside one bracket or two.
    #[tactic(auto, unfolding(df_syntax::specs::Grammar::bound, df_forms::specs::Reading::read))]
    pub fn bound(&self, tokens: &mut Cursor<'_>) -> Result<Named, ParseError>
        ensures once { Reads (reads self.now.depth 1 line.bound tokens.old.rest.now) tokens.old.rest.now result tokens.new.rest.now }
        ensures twice { Reads (reads self.now.depth 2 line.bound tokens.old.rest.now) tokens.old.rest.now result tokens.new.rest.now }
    {
        let (token, name) = tokens.take_name()?;
        Ok(Named {
            name,
            place: token.place,
        })
    }

    /// A basic type.
    pub fn basic_type(&self, tokens: &mut Cursor<'_>) -> Result<Basic, ParseError>
        ensures { Reads (plain line.basic_type tokens.old.rest.now) tokens.old.rest.now result tokens.new.rest.now }
    {
        if tokens.sees_word(Reserved::Integer) {
            tokens.take_word(Reserved::Integer)?;
            Ok(Basic::Integer)
        } else {
            tokens.take_word(Reserved::Boolean)?;
            Ok(Basic::Boolean)
        }
    }

    /// `*` or `/`.
    pub fn factor_op(&self, tokens: &mut Cursor<'_>) -> Result<Op, ParseError>
        ensures { Reads (reads self.now.depth 0 line.factor_op tokens.old.rest.now) tokens.old.rest.now result tokens.new.rest.now }
    {
        if tokens.sees_symbol(Symbol::Star) {
            tokens.take_symbol(Symbol::Star)?;
            Ok(Op::Mul)
        } else {
            tokens.take_symbol(Symbol::Slash)?;
            Ok(Op::Div)
        }
    }

    /// `+` or `-`.
    pub fn term_op(&self, tokens: &mut Cursor<'_>) -> Result<Op, ParseError>
        ensures { Reads (reads self.now.depth 0 line.term_op tokens.old.rest.now) tokens.old.rest.now result tokens.new.rest.now }
    {
        if tokens.sees_symbol(Symbol::Plus) {
            tokens.take_symbol(Symbol::Plus)?;
            Ok(Op::Add)
        } else {
            tokens.take_symbol(Symbol::Minus)?;
            Ok(Op::Sub)
        }
    }

    /// One of the six comparisons.
    pub fn comparison(&self, tokens: &mut Cursor<'_>) -> Result<Rel, ParseError>
        ensures { Reads (reads self.now.depth 0 line.comparison tokens.old.rest.now) tokens.old.rest.now result tokens.new.rest.now }
    {
        if tokens.sees_symbol(Symbol::Less) {
            tokens.take_symbol(Symbol::Less)?;
            Ok(Rel::Lt)
        } else if tokens.sees_symbol(Symbol::LessEqual) {
            tokens.take_symbol(Symbol::LessEqual)?;
            Ok(Rel::Le)
        } else if tokens.sees_symbol(Symbol::Greater) {
            tokens.take_symbol(Symbol::Greater)?;
            Ok(Rel::Gt)
        } else if tokens.sees_symbol(Symbol::GreaterEqual) {
            tokens.take_symbol(Symbol::GreaterEqual)?;
            Ok(Rel::Ge)
        } else if tokens.sees_symbol(Symbol::Equal) {
            tokens.take_symbol(Symbol::Equal)?;
            Ok(Rel::Eq)
        } else {
            tokens.take_symbol(Symbol::NotEqual)?;
            Ok(Rel::Ne)
        }
    }

    /// `mod`, `min` or `max`, and the token itself.
    pub fn two_place_op(&self, tokens: &mut Cursor<'_>) -> Result<(Token, Op), ParseError>
        ensures { Reads (reads self.now.depth 0 line.two_place_op tokens.old.rest.now) tokens.old.rest.now result tokens.new.rest.now }
    {
        if tokens.sees_word(Reserved::Mod) {
            let token = tokens.take_word(Reserved::Mod)?;
            Ok((token, Op::Mod))
        } else if tokens.sees_word(Reserved::Min) {
            let token = tokens.take_word(Reserved::Min)?;
            Ok((token, Op::Min))
        } else {
            let token = tokens.take_word(Reserved::Max)?;
            Ok((token, Op::Max))
        }
    }

    /// The operator of a fold.
    pub fn fold_op(&self, tokens: &mut Cursor<'_>) -> Result<Op, ParseError>
        ensures { Reads (reads self.now.depth 1 line.fold_op tokens.old.rest.now) tokens.old.rest.now result tokens.new.rest.now }
    {
        if tokens.sees_word(Reserved::Plus) {
            tokens.take_word(Reserved::Plus)?;
            Ok(Op::Add)
        } else if tokens.sees_word(Reserved::Times) {
            tokens.take_word(Reserved::Times)?;
            Ok(Op::Mul)
        } else if tokens.sees_word(Reserved::And) {
            tokens.take_word(Reserved::And)?;
            Ok(Op::And)
        } else if tokens.sees_word(Reserved::Or) {
            tokens.take_word(Reserved::Or)?;
            Ok(Op::Or)
        } else if tokens.sees_word(Reserved::Min) {
            tokens.take_word(Reserved::Min)?;
            Ok(Op::Min)
        } else {
            tokens.take_word(Reserved::Max)?;
            Ok(Op::Max)
        }
    }

    /// What a test asks for.
    pub fn tested(&self, tokens: &mut Cursor<'_>) -> Result<Test, ParseError>
        ensures { Reads (reads self.now.depth 0 line.tested tokens.old.rest.now) tokens.old.rest.now result tokens.new.rest.now }
    {
        if tokens.sees_word(Reserved::Undef) {
            tokens.take_word(Reserved::Undef)?;
            Ok(Test::Undef)
        } else if tokens.sees_word(Reserved::MissElt) {
            tokens.take_word(Reserved::MissElt)?;
            Ok(Test::MissElt)
        } else if tokens.sees_word(Reserved::PosOver) {
            tokens.take_word(Reserved::PosOver)?;
            Ok(Test::PosOver)
        } else if tokens.sees_word(Reserved::NegOver) {
            tokens.take_word(Reserved::NegOver)?;
            Ok(Test::NegOver)
        } else if tokens.sees_word(Reserved::Unknown) {
            tokens.take_word(Reserved::Unknown)?;
            Ok(Test::Unknown)
        } else if tokens.sees_word(Reserved::ZeroDivide) {
            tokens.take_word(Reserved::ZeroDivide)?;
            Ok(Test::ZeroDivide)
        } else {
            tokens.take_word(Reserved::Error)?;
            Ok(Test::Error)
        }
    }
}
