//! Whether the token in hand begins a line.
ghost use Rattle.std.specs.Prelude.{◌≡◌, ◌++◌};
ghost use Rattle.df_forms.specs.OneToken.{first};
ghost use Rattle.df_forms.specs.Reading.{sees};
ghost use Rattle.df_syntax.specs.Grammar as line;
ghost use Rattle.df_syntax.specs.Lines as read;
ghost use Rattle.df_syntax.specs.Lines.{start};
ghost use Rattle.df_syntax.specs.TokenClasses.{class};
ghost use Rattle.df_cursor.specs.Blocks.{blocks};

use crate::cursor::Cursor;
use df_syntax::symbol::Symbol;
use df_syntax::word::Reserved;

impl<'a> Cursor<'a> {
    /// A basic type begins here.
    #[tactic(auto, using(crate::proofs::Hands::sees_more, crate::proofs::Firsts::first_basic_type))]
    pub fn begins_basic(&self) -> bool
        ensures { result ≡ sees class (first start line.basic_type) self.now.rest.now }
    {
        self.sees_word(Reserved::Integer) || self.sees_word(Reserved::Boolean)
    }

    /// A comparison stands here.
    #[tactic(auto, using(crate::proofs::Hands::sees_more, crate::proofs::Firsts::first_comparison))]
    pub fn begins_comparison(&self) -> bool
        ensures { result ≡ sees class (first start line.comparison) self.now.rest.now }
    {
        self.sees_symbol(Symbol::Less)
            || self.sees_symbol(Symbol::LessEqual)
            || self.sees_symbol(Symbol::Greater)
            || self.sees_symbol(Symbol::GreaterEqual)
            || self.sees_symbol(Symbol::Equal)
            || self.sees_symbol(Symbol::NotEqual)
    }

    /// A number or a truth value stands here.
    #[tactic(auto, using(crate::proofs::Hands::sees_more, crate::proofs::Firsts::first_literal))]
    pub fn begins_literal(&self) -> bool
        ensures { result ≡ sees class (first start line.literal) self.now.rest.now }
    {
        self.sees_number() || self.sees_word(Reserved::True) || self.sees_word(Reserved::False)
    }

    /// An error value that is written with its type begins here.
    #[tactic(auto, using(crate::proofs::Hands::sees_more, crate::proofs::Firsts::first_typed_error))]
    pub fn begins_typed_error(&self) -> bool
        ensures { result ≡ sees class (first start line.typed_error) self.now.rest.now }
    {
        self.sees_word(Reserved::Undef) || self.sees_word(Reserved::MissElt)
    }

    /// An error value that is an integer alone stands here.
    #[tactic(auto, using(crate::proofs::Hands::sees_more, crate::proofs::Firsts::first_integer_error))]
    pub fn begins_integer_error(&self) -> bool
        ensures { result ≡ sees class (first start line.integer_error) self.now.rest.now }
    {
        self.sees_word(Reserved::PosOver)
            || self.sees_word(Reserved::NegOver)
            || self.sees_word(Reserved::Unknown)
            || self.sees_word(Reserved::ZeroDivide)
    }

    /// A call of `mod`, `min` or `max` begins here.
    #[tactic(auto, using(crate::proofs::Hands::sees_more, crate::proofs::Firsts::first_two_place))]
    pub fn begins_two_place(&self) -> bool
        ensures { result ≡ sees class (first start line.two_place) self.now.rest.now }
    {
        self.sees_word(Reserved::Mod)
            || self.sees_word(Reserved::Min)
            || self.sees_word(Reserved::Max)
    }

    /// An operator of a product stands here.
    #[tactic(auto, using(crate::proofs::Hands::sees_more, crate::proofs::Firsts::first_factor_link))]
    pub fn begins_factor_link(&self) -> bool
        ensures { result ≡ sees class (first start read.factor_link) self.now.rest.now }
    {
        self.sees_symbol(Symbol::Star) || self.sees_symbol(Symbol::Slash)
    }

    /// An operator of a sum stands here.
    #[tactic(auto, using(crate::proofs::Hands::sees_more, crate::proofs::Firsts::first_term_link))]
    pub fn begins_term_link(&self) -> bool
        ensures { result ≡ sees class (first start read.term_link) self.now.rest.now }
    {
        self.sees_symbol(Symbol::Plus) || self.sees_symbol(Symbol::Minus)
    }

    /// A number, a truth value or an error value begins here.
    #[tactic(auto, using(crate::proofs::Starts::sees_both))]
    pub fn begins_value(&self) -> bool
        ensures { result ≡ sees class (first start line.literal ++ (first start line.typed_error ++ first start line.integer_error)) self.now.rest.now }
    {
        self.begins_literal() || self.begins_typed_error() || self.begins_integer_error()
    }

    /// A `let`, an `if`, a `forall` or a `for` begins here.
    #[tactic(auto, using(crate::proofs::Hands::sees_more), unfolding(crate::specs::Blocks::blocks))]
    pub fn begins_block(&self) -> bool
        ensures { result ≡ sees class (blocks) self.now.rest.now }
    {
        self.sees_word(Reserved::Let)
            || self.sees_word(Reserved::If)
            || self.sees_word(Reserved::ForAll)
            || self.sees_word(Reserved::For)
    }

    /// An expression without operators begins here, and it is no name and no value.
    #[tactic(auto, using(crate::proofs::Starts::others_seen))]
    pub fn begins_other(&self) -> bool
        ensures { result ≡ sees class (first start read.others) self.now.rest.now }
    {
        self.sees_symbol(Symbol::LeftParen)
            || self.begins_two_place()
            || self.sees_word(Reserved::Is)
            || self.sees_symbol(Symbol::LeftBracket)
            || self.begins_block()
    }

    /// An expression begins here.
    #[tactic(auto, using(crate::proofs::Starts::start_seen))]
    pub fn begins_expr(&self) -> bool
        ensures { result ≡ sees class start self.now.rest.now }
    {
        self.sees_symbol(Symbol::Tilde)
            || self.sees_symbol(Symbol::Minus)
            || self.begins_value()
            || self.sees_name()
            || self.begins_other()
    }
}
