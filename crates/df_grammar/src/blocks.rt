//! Expressions with words of their own: `let`, `if`, `forall` and `for`, and what stands in them.
ghost use Rattle.std.specs.Prelude.{◌≡◌, ◌<◌, OnOk};
ghost use Rattle.df_syntax.specs.Grammar as line;
ghost use Rattle.df_syntax.specs.Lines as read;
ghost use Rattle.df_syntax.specs.Reading.{reads};
ghost use Rattle.df_grammar.specs.Nests.{Nests};
ghost use Rattle.df_grammar.specs.Parts as part;
ghost use Rattle.df_cursor.specs.Reads.{Reads};

use crate::descent::{Descent, node};
use df_cursor::cursor::Cursor;
use df_cursor::error::ParseError;
use df_syntax::symbol::Symbol;
use df_syntax::tree::{Arm, Assign, Definition, Expr, Named, Node, Sort};
use df_syntax::word::Reserved;
use df_values::kinds::Op;
use sqlite_items::Items;
use std::alloc::Global;

/// Elements for all indices: an array of them, or folded by an operator.
fn for_all(index: Named, low: Expr, high: Expr, op: Option<Op>, elem: Expr) -> Node
    ensures { result ≡ line.for_all index low high (op, elem) }
{
    match op {
        None => Node::Construct {
            index,
            low,
            high,
            elem,
        },
        Some(op) => Node::Fold {
            index,
            low,
            high,
            op,
            elem,
        },
    }
}

impl<F> Descent<F> {
    /// A type.
    #[tactic(auto, using(df_cursor::proofs::Firsts::first_basic_type, crate::proofs::Levels::plain_basic_type), unfolding(df_syntax::specs::Grammar::sort, df_forms::specs::Reading::read, df_cursor::specs::Reads::opened))]
    pub fn sort(&self, tokens: &mut Cursor<'_>, level: usize) -> Result<Sort, ParseError>
        ensures { Reads (reads self.now.depth level line.sort tokens.old.rest.now) tokens.old.rest.now result tokens.new.rest.now }
    {
        if tokens.begins_basic() {
            Ok(Sort::Basic(self.basic_type(tokens)?))
        } else {
            tokens.take_word(Reserved::Array)?;
            Ok(Sort::Array(self.of_basic(tokens, level)?))
        }
    }
}

impl<F: Fn(Global, &mut Cursor<'_>, usize) -> Result<Expr, ParseError>> Descent<F> {
    /// An expression behind a comma.
    pub fn next_expr(&self, tokens: &mut Cursor<'_>) -> Result<Expr, ParseError>
        requires nests { Nests self.now.depth (F.pre self.now.expr) (F.post self.now.expr) }
        requires inside { 0 < self.now.depth }
        ensures { Reads (reads self.now.depth 1 part.next_expr tokens.old.rest.now) tokens.old.rest.now result tokens.new.rest.now }
    {
        tokens.take_symbol(Symbol::Comma)?;
        self.again(tokens, 1)
    }

    /// One expression or more.
    #[tactic(auto, unfolding(df_syntax::specs::Grammar::exprs, df_forms::specs::Reading::read, df_cursor::specs::Reads::opened))]
    pub fn exprs(&self, tokens: &mut Cursor<'_>) -> Result<Items<Expr>, ParseError>
        requires nests { Nests self.now.depth (F.pre self.now.expr) (F.post self.now.expr) }
        requires inside { 0 < self.now.depth }
        ensures { Reads (reads self.now.depth 1 line.exprs tokens.old.rest.now) tokens.old.rest.now result tokens.new.rest.now }
    {
        let first = self.again(tokens, 1)?;
        let mut all = Items::new(self.alloc);
        all.push(first)?;
        'parts: while tokens.sees_symbol(Symbol::Comma) {
            all.push(self.next_expr(tokens)?)?;
        }
        Ok(all)
    }

    /// None or more expressions.
    #[tactic(auto, using(crate::proofs::Firsts::first_exprs), unfolding(df_syntax::specs::Grammar::arguments, df_forms::specs::Reading::read, df_cursor::specs::Reads::opened))]
    pub fn arguments(&self, tokens: &mut Cursor<'_>) -> Result<Items<Expr>, ParseError>
        requires nests { Nests self.now.depth (F.pre self.now.expr) (F.post self.now.expr) }
        requires inside { 0 < self.now.depth }
        ensures { Reads (reads self.now.depth 1 line.arguments tokens.old.rest.now) tokens.old.rest.now result tokens.new.rest.now }
    {
        if tokens.begins_expr() {
            self.exprs(tokens)
        } else {
            Ok(Items::new(self.alloc))
        }
    }

    /// The definition of a name.
    pub fn definition(&self, tokens: &mut Cursor<'_>) -> Result<Definition, ParseError>
        requires nests { Nests self.now.depth (F.pre self.now.expr) (F.post self.now.expr) }
        requires inside { 0 < self.now.depth }
        ensures { Reads (reads self.now.depth 1 line.definition tokens.old.rest.now) tokens.old.rest.now result tokens.new.rest.now }
    {
        let name = self.bound(tokens)?;
        tokens.take_symbol(Symbol::Colon)?;
        let sort = self.sort(tokens, 1)?;
        tokens.take_symbol(Symbol::Becomes)?;
        let value = self.again(tokens, 1)?;
        Ok(Definition { name, sort, value })
    }

    /// A definition behind a semicolon.
    pub fn next_definition(&self, tokens: &mut Cursor<'_>) -> Result<Definition, ParseError>
        requires nests { Nests self.now.depth (F.pre self.now.expr) (F.post self.now.expr) }
        requires inside { 0 < self.now.depth }
        ensures { Reads (reads self.now.depth 1 part.next_definition tokens.old.rest.now) tokens.old.rest.now result tokens.new.rest.now }
    {
        tokens.take_symbol(Symbol::Semicolon)?;
        self.definition(tokens)
    }

    /// One definition or more.
    #[tactic(auto, using(crate::proofs::Levels::level_definition_1), unfolding(df_syntax::specs::Grammar::definitions, df_forms::specs::Reading::read, df_cursor::specs::Reads::opened))]
    pub fn definitions(&self, tokens: &mut Cursor<'_>) -> Result<Items<Definition>, ParseError>
        requires nests { Nests self.now.depth (F.pre self.now.expr) (F.post self.now.expr) }
        requires inside { 0 < self.now.depth }
        ensures { Reads (reads self.now.depth 1 line.definitions tokens.old.rest.now) tokens.old.rest.now result tokens.new.rest.now }
    {
        let first = self.definition(tokens)?;
        let mut all = Items::new(self.alloc);
        all.push(first)?;
        'parts: while tokens.sees_symbol(Symbol::Semicolon) {
            all.push(self.next_definition(tokens)?)?;
        }
        Ok(all)
    }

    /// Definitions and the values that they are for.
    pub fn block(&self, tokens: &mut Cursor<'_>) -> Result<Expr, ParseError>
        requires { Nests self.now.depth (F.pre self.now.expr) (F.post self.now.expr) }
        ensures { Reads (reads self.now.depth 0 line.block tokens.old.rest.now) tokens.old.rest.now result tokens.new.rest.now }
    {
        let token = tokens.open_word(Reserved::Let, 0, self.depth)?;
        let definitions = self.definitions(tokens)?;
        tokens.take_word(Reserved::In)?;
        let values = self.exprs(tokens)?;
        tokens.take_word(Reserved::EndLet)?;
        Ok(node(
            self.alloc,
            token.place,
            Node::Let {
                definitions,
                values,
            },
        )?)
    }

    /// What is tested, and the value where it holds.
    pub fn arm(&self, tokens: &mut Cursor<'_>) -> Result<Arm, ParseError>
        requires nests { Nests self.now.depth (F.pre self.now.expr) (F.post self.now.expr) }
        requires inside { 0 < self.now.depth }
        ensures { Reads (reads self.now.depth 1 line.arm tokens.old.rest.now) tokens.old.rest.now result tokens.new.rest.now }
    {
        let test = self.again(tokens, 1)?;
        tokens.take_word(Reserved::Then)?;
        let value = self.again(tokens, 1)?;
        Ok(Arm { test, value })
    }

    /// An arm behind `elseif`, which opens no bracket.
    pub fn next_arm(&self, tokens: &mut Cursor<'_>) -> Result<Arm, ParseError>
        requires nests { Nests self.now.depth (F.pre self.now.expr) (F.post self.now.expr) }
        requires inside { 0 < self.now.depth }
        ensures { Reads (reads self.now.depth 1 part.next_arm tokens.old.rest.now) tokens.old.rest.now result tokens.new.rest.now }
    {
        tokens.take_word(Reserved::ElseIf)?;
        self.arm(tokens)
    }

    /// One arm or more.
    #[tactic(auto, using(crate::proofs::Levels::level_arm_1), unfolding(df_syntax::specs::Grammar::arms, df_forms::specs::Reading::read, df_cursor::specs::Reads::opened))]
    pub fn arms(&self, tokens: &mut Cursor<'_>) -> Result<Items<Arm>, ParseError>
        requires nests { Nests self.now.depth (F.pre self.now.expr) (F.post self.now.expr) }
        requires inside { 0 < self.now.depth }
        ensures { Reads (reads self.now.depth 1 line.arms tokens.old.rest.now) tokens.old.rest.now result tokens.new.rest.now }
    {
        let first = self.arm(tokens)?;
        let mut all = Items::new(self.alloc);
        all.push(first)?;
        'parts: while tokens.sees_word(Reserved::ElseIf) {
            all.push(self.next_arm(tokens)?)?;
        }
        Ok(all)
    }

    /// An `if`.
    pub fn choice(&self, tokens: &mut Cursor<'_>) -> Result<Expr, ParseError>
        requires { Nests self.now.depth (F.pre self.now.expr) (F.post self.now.expr) }
        ensures { Reads (reads self.now.depth 0 line.choice tokens.old.rest.now) tokens.old.rest.now result tokens.new.rest.now }
    {
        let token = tokens.open_word(Reserved::If, 0, self.depth)?;
        let arms = self.arms(tokens)?;
        tokens.take_word(Reserved::Else)?;
        let last = self.again(tokens, 1)?;
        tokens.take_word(Reserved::EndIf)?;
        Ok(node(self.alloc, token.place, Node::If { arms, last })?)
    }

    /// The element for each index, and the operator that folds them.
    pub fn element(&self, tokens: &mut Cursor<'_>) -> Result<(Option<Op>, Expr), ParseError>
        requires nests { Nests self.now.depth (F.pre self.now.expr) (F.post self.now.expr) }
        requires inside { 0 < self.now.depth }
        ensures { Reads (reads self.now.depth 1 line.element tokens.old.rest.now) tokens.old.rest.now result tokens.new.rest.now }
    {
        if tokens.sees_word(Reserved::Construct) {
            tokens.take_word(Reserved::Construct)?;
            Ok((None, self.again(tokens, 1)?))
        } else {
            tokens.take_word(Reserved::Eval)?;
            let op = self.fold_op(tokens)?;
            Ok((Some(op), self.again(tokens, 1)?))
        }
    }

    /// The indices of a `forall`.
    pub fn bounds(&self, tokens: &mut Cursor<'_>) -> Result<(Expr, Expr), ParseError>
        requires { Nests self.now.depth (F.pre self.now.expr) (F.post self.now.expr) }
        ensures { Reads (reads self.now.depth 1 line.bounds tokens.old.rest.now) tokens.old.rest.now result tokens.new.rest.now }
    {
        tokens.open_symbol(Symbol::LeftBracket, 1, self.depth)?;
        let low = self.again(tokens, 2)?;
        tokens.take_symbol(Symbol::Comma)?;
        let high = self.again(tokens, 2)?;
        tokens.take_symbol(Symbol::RightBracket)?;
        Ok((low, high))
    }

    /// A `forall`.
    pub fn all_indices(&self, tokens: &mut Cursor<'_>) -> Result<Expr, ParseError>
        requires { Nests self.now.depth (F.pre self.now.expr) (F.post self.now.expr) }
        ensures { Reads (reads self.now.depth 0 line.all_indices tokens.old.rest.now) tokens.old.rest.now result tokens.new.rest.now }
    {
        let token = tokens.open_word(Reserved::ForAll, 0, self.depth)?;
        let index = self.bound(tokens)?;
        tokens.take_word(Reserved::In)?;
        let (low, high) = self.bounds(tokens)?;
        let (op, elem) = self.element(tokens)?;
        tokens.take_word(Reserved::EndAll)?;
        Ok(node(self.alloc, token.place, for_all(index, low, high, op, elem))?)
    }

    /// The next value of a name of a loop.
    pub fn assign(&self, tokens: &mut Cursor<'_>) -> Result<Assign, ParseError>
        requires nests { Nests self.now.depth (F.pre self.now.expr) (F.post self.now.expr) }
        requires inside { 1 < self.now.depth }
        ensures { Reads (reads self.now.depth 2 line.assign tokens.old.rest.now) tokens.old.rest.now result tokens.new.rest.now }
    {
        let name = self.bound(tokens)?;
        tokens.take_symbol(Symbol::Becomes)?;
        let value = self.again(tokens, 2)?;
        Ok(Assign { name, value })
    }

    /// An assignment behind a semicolon.
    pub fn next_assign(&self, tokens: &mut Cursor<'_>) -> Result<Assign, ParseError>
        requires nests { Nests self.now.depth (F.pre self.now.expr) (F.post self.now.expr) }
        requires inside { 1 < self.now.depth }
        ensures { Reads (reads self.now.depth 2 part.next_assign tokens.old.rest.now) tokens.old.rest.now result tokens.new.rest.now }
    {
        tokens.take_symbol(Symbol::Semicolon)?;
        self.assign(tokens)
    }

    /// One assignment or more.
    #[tactic(auto, using(crate::proofs::Levels::level_assign_2), unfolding(df_syntax::specs::Grammar::assigns, df_forms::specs::Reading::read, df_cursor::specs::Reads::opened))]
    pub fn assigns(&self, tokens: &mut Cursor<'_>) -> Result<Items<Assign>, ParseError>
        requires nests { Nests self.now.depth (F.pre self.now.expr) (F.post self.now.expr) }
        requires inside { 1 < self.now.depth }
        ensures { Reads (reads self.now.depth 2 line.assigns tokens.old.rest.now) tokens.old.rest.now result tokens.new.rest.now }
    {
        let first = self.assign(tokens)?;
        let mut all = Items::new(self.alloc);
        all.push(first)?;
        'parts: while tokens.sees_symbol(Symbol::Semicolon) {
            all.push(self.next_assign(tokens)?)?;
        }
        Ok(all)
    }

    /// What is tested before each turn of a loop.
    pub fn loop_test(&self, tokens: &mut Cursor<'_>) -> Result<Expr, ParseError>
        requires { Nests self.now.depth (F.pre self.now.expr) (F.post self.now.expr) }
        ensures reads { Reads (reads self.now.depth 1 part.loop_test tokens.old.rest.now) tokens.old.rest.now result tokens.new.rest.now }
        ensures room { OnOk result (1 < self.now.depth) }
    {
        tokens.take_word(Reserved::Do)?;
        tokens.open_word(Reserved::If, 1, self.depth)?;
        self.again(tokens, 2)
    }

    /// A turn of a loop.
    pub fn loop_turn(&self, tokens: &mut Cursor<'_>) -> Result<Items<Assign>, ParseError>
        requires nests { Nests self.now.depth (F.pre self.now.expr) (F.post self.now.expr) }
        requires inside { 1 < self.now.depth }
        ensures { Reads (reads self.now.depth 2 part.loop_turn tokens.old.rest.now) tokens.old.rest.now result tokens.new.rest.now }
    {
        tokens.take_word(Reserved::Then)?;
        tokens.take_word(Reserved::Iter)?;
        let assigns = self.assigns(tokens)?;
        tokens.take_word(Reserved::EndIter)?;
        Ok(assigns)
    }

    /// The value of a loop where its test fails, and its end.
    pub fn loop_last(&self, tokens: &mut Cursor<'_>) -> Result<Expr, ParseError>
        requires nests { Nests self.now.depth (F.pre self.now.expr) (F.post self.now.expr) }
        requires inside { 1 < self.now.depth }
        ensures { Reads (reads self.now.depth 2 part.loop_last tokens.old.rest.now) tokens.old.rest.now result tokens.new.rest.now }
    {
        tokens.take_word(Reserved::Else)?;
        let last = self.again(tokens, 2)?;
        tokens.take_word(Reserved::EndIf)?;
        tokens.take_word(Reserved::EndFor)?;
        Ok(last)
    }

    /// A `for`.
    pub fn for_loop(&self, tokens: &mut Cursor<'_>) -> Result<Expr, ParseError>
        requires { Nests self.now.depth (F.pre self.now.expr) (F.post self.now.expr) }
        ensures { Reads (reads self.now.depth 0 line.for_loop tokens.old.rest.now) tokens.old.rest.now result tokens.new.rest.now }
    {
        let token = tokens.open_word(Reserved::For, 0, self.depth)?;
        let definitions = self.definitions(tokens)?;
        let test = self.loop_test(tokens)?;
        let assigns = self.loop_turn(tokens)?;
        let last = self.loop_last(tokens)?;
        let made = Node::For {
            definitions,
            test,
            assigns,
            last,
        };
        Ok(node(self.alloc, token.place, made)?)
    }
}
