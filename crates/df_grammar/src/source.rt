//! Constants, ranges, functions, and the whole source.
ghost use Rattle.std.specs.Prelude.{◌≡◌, ◌<◌, map, IfOk};
ghost use Rattle.df_syntax.specs.Grammar as line;
ghost use Rattle.df_syntax.specs.Lines as read;
ghost use Rattle.df_syntax.specs.Reading.{reads};
ghost use Rattle.df_grammar.specs.Nests.{Nests};
ghost use Rattle.df_grammar.specs.Parts as part;
ghost use Rattle.df_cursor.specs.Reads.{Reads};

use crate::descent::Descent;
use df_cursor::cursor::Cursor;
use df_cursor::error::ParseError;
use df_syntax::program::{Constant, Function, Program, Range};
use df_syntax::symbol::Symbol;
use df_syntax::tree::{Expr, Named, Parameter, Sort};
use df_syntax::word::Reserved;
use sqlite_items::Items;
use std::alloc::{AllocError, Global};

/// The parameters of these names, all of one type.
fn parameters_of(alloc: Global, names: &[Named], sort: Sort) -> Result<Items<Parameter>, AllocError>
    ensures { IfOk result (λ all. all ≡ map (line.parameter_of sort) names.now) }
{
    let mut all = Items::new(alloc);
    for name in names {
        all.push(Parameter { name: *name, sort })?;
    }
    Ok(all)
}

/// The parameters of all groups, in order.
#[tactic(auto, using(crate::proofs::Groups::all_of_next))]
fn all_of(alloc: Global, groups: &[Items<Parameter>]) -> Result<Items<Parameter>, AllocError>
    ensures { IfOk result (λ all. all ≡ line.all_of groups.now) }
{
    let mut all = Items::new(alloc);
    for group in groups {
        all.append(Items::from_slice(alloc, group.as_slice())?)?;
    }
    Ok(all)
}

impl<F> Descent<F> {
    /// A name behind a comma.
    pub fn next_name(&self, tokens: &mut Cursor<'_>) -> Result<Named, ParseError>
        ensures { Reads (reads self.now.depth 2 part.next_name tokens.old.rest.now) tokens.old.rest.now result tokens.new.rest.now }
    {
        tokens.take_symbol(Symbol::Comma)?;
        self.bound(tokens)
    }

    /// One name or more.
    #[tactic(auto, using(crate::proofs::Levels::level_bound_2), unfolding(df_syntax::specs::Grammar::names, df_forms::specs::Reading::read, df_cursor::specs::Reads::opened))]
    pub fn names(&self, tokens: &mut Cursor<'_>) -> Result<Items<Named>, ParseError>
        ensures { Reads (reads self.now.depth 2 line.names tokens.old.rest.now) tokens.old.rest.now result tokens.new.rest.now }
    {
        let first = self.bound(tokens)?;
        let mut all = Items::new(self.alloc);
        all.push(first)?;
        'parts: while tokens.sees_symbol(Symbol::Comma) {
            all.push(self.next_name(tokens)?)?;
        }
        Ok(all)
    }

    /// Parameters of one type.
    #[tactic(auto, using(crate::proofs::Levels::level_names_2), unfolding(df_syntax::specs::Grammar::group, df_forms::specs::Reading::read, df_cursor::specs::Reads::opened))]
    pub fn group(&self, tokens: &mut Cursor<'_>) -> Result<Items<Parameter>, ParseError>
        ensures { Reads (reads self.now.depth 2 line.group tokens.old.rest.now) tokens.old.rest.now result tokens.new.rest.now }
    {
        let names = self.names(tokens)?;
        tokens.take_symbol(Symbol::Colon)?;
        let sort = self.sort(tokens, 2)?;
        Ok(parameters_of(self.alloc, names.as_slice(), sort)?)
    }

    /// A group behind a semicolon.
    pub fn next_group(&self, tokens: &mut Cursor<'_>) -> Result<Items<Parameter>, ParseError>
        ensures { Reads (reads self.now.depth 2 part.next_group tokens.old.rest.now) tokens.old.rest.now result tokens.new.rest.now }
    {
        tokens.take_symbol(Symbol::Semicolon)?;
        self.group(tokens)
    }

    /// One group or more.
    #[tactic(auto, using(crate::proofs::Levels::level_group_2), unfolding(df_syntax::specs::Grammar::groups, df_forms::specs::Reading::read, df_cursor::specs::Reads::opened))]
    pub fn groups(&self, tokens: &mut Cursor<'_>) -> Result<Items<Items<Parameter>>, ParseError>
        ensures { Reads (reads self.now.depth 2 line.groups tokens.old.rest.now) tokens.old.rest.now result tokens.new.rest.now }
    {
        let first = self.group(tokens)?;
        let mut all = Items::new(self.alloc);
        all.push(first)?;
        'parts: while tokens.sees_symbol(Symbol::Semicolon) {
            all.push(self.next_group(tokens)?)?;
        }
        Ok(all)
    }

    /// The parameters of a function, none or more.
    #[tactic(auto, using(crate::proofs::Firsts::first_parameters), unfolding(df_syntax::specs::Grammar::declared, df_syntax::specs::Grammar::parameters, df_forms::specs::Reading::read, df_cursor::specs::Reads::opened))]
    pub fn declared(&self, tokens: &mut Cursor<'_>) -> Result<Items<Parameter>, ParseError>
        ensures { Reads (reads self.now.depth 2 line.declared tokens.old.rest.now) tokens.old.rest.now result tokens.new.rest.now }
    {
        if tokens.sees_name() {
            let groups = self.groups(tokens)?;
            Ok(all_of(self.alloc, groups.as_slice())?)
        } else {
            Ok(Items::new(self.alloc))
        }
    }

    /// A type behind a comma.
    pub fn next_type(&self, tokens: &mut Cursor<'_>) -> Result<Sort, ParseError>
        ensures { Reads (reads self.now.depth 2 part.next_type tokens.old.rest.now) tokens.old.rest.now result tokens.new.rest.now }
    {
        tokens.take_symbol(Symbol::Comma)?;
        self.sort(tokens, 2)
    }

    /// The types of the results, one or more.
    #[tactic(auto, using(crate::proofs::Levels::level_sort_2), unfolding(df_syntax::specs::Grammar::results, df_forms::specs::Reading::read, df_cursor::specs::Reads::opened))]
    pub fn results(&self, tokens: &mut Cursor<'_>) -> Result<Items<Sort>, ParseError>
        ensures { Reads (reads self.now.depth 2 line.results tokens.old.rest.now) tokens.old.rest.now result tokens.new.rest.now }
    {
        let first = self.sort(tokens, 2)?;
        let mut all = Items::new(self.alloc);
        all.push(first)?;
        'parts: while tokens.sees_symbol(Symbol::Comma) {
            all.push(self.next_type(tokens)?)?;
        }
        Ok(all)
    }

    /// The parameters of a function, and the types of its results.
    pub fn signature(
        &self,
        tokens: &mut Cursor<'_>,
    ) -> Result<(Items<Parameter>, Items<Sort>), ParseError>
        ensures { Reads (reads self.now.depth 1 part.signature tokens.old.rest.now) tokens.old.rest.now result tokens.new.rest.now }
    {
        tokens.open_symbol(Symbol::LeftParen, 1, self.depth)?;
        let parameters = self.declared(tokens)?;
        tokens.take_word(Reserved::Returns)?;
        let results = self.results(tokens)?;
        tokens.take_symbol(Symbol::RightParen)?;
        Ok((parameters, results))
    }
}

impl<F: Fn(Global, &mut Cursor<'_>, usize) -> Result<Expr, ParseError>> Descent<F> {
    /// `constant name = value;`
    pub fn constant(&self, tokens: &mut Cursor<'_>) -> Result<Constant, ParseError>
        requires nests { Nests self.now.depth (F.pre self.now.expr) (F.post self.now.expr) }
        requires inside { 0 < self.now.depth }
        ensures { Reads (reads self.now.depth 1 line.constant tokens.old.rest.now) tokens.old.rest.now result tokens.new.rest.now }
    {
        tokens.take_word(Reserved::Constant)?;
        let name = self.bound(tokens)?;
        tokens.take_symbol(Symbol::Equal)?;
        let value = self.again(tokens, 1)?;
        tokens.take_symbol(Symbol::Semicolon)?;
        Ok(Constant { name, value })
    }

    /// None or more constants.
    #[tactic(auto, using(crate::proofs::Firsts::first_constant), unfolding(df_syntax::specs::Grammar::constants, df_forms::specs::Reading::read, df_cursor::specs::Reads::opened))]
    pub fn constants(&self, tokens: &mut Cursor<'_>) -> Result<Items<Constant>, ParseError>
        requires nests { Nests self.now.depth (F.pre self.now.expr) (F.post self.now.expr) }
        requires inside { 0 < self.now.depth }
        ensures { Reads (reads self.now.depth 1 line.constants tokens.old.rest.now) tokens.old.rest.now result tokens.new.rest.now }
    {
        let mut all = Items::new(self.alloc);
        'parts: while tokens.sees_word(Reserved::Constant) {
            all.push(self.constant(tokens)?)?;
        }
        Ok(all)
    }

    /// `range name [low, high];`
    pub fn range(&self, tokens: &mut Cursor<'_>) -> Result<Range, ParseError>
        requires nests { Nests self.now.depth (F.pre self.now.expr) (F.post self.now.expr) }
        requires inside { 0 < self.now.depth }
        ensures { Reads (reads self.now.depth 1 line.range tokens.old.rest.now) tokens.old.rest.now result tokens.new.rest.now }
    {
        tokens.take_word(Reserved::Range)?;
        let name = self.bound(tokens)?;
        let (low, high) = self.bounds(tokens)?;
        tokens.take_symbol(Symbol::Semicolon)?;
        Ok(Range { name, low, high })
    }

    /// None or more ranges.
    #[tactic(auto, using(crate::proofs::Firsts::first_range), unfolding(df_syntax::specs::Grammar::ranges, df_forms::specs::Reading::read, df_cursor::specs::Reads::opened))]
    pub fn ranges(&self, tokens: &mut Cursor<'_>) -> Result<Items<Range>, ParseError>
        requires nests { Nests self.now.depth (F.pre self.now.expr) (F.post self.now.expr) }
        requires inside { 0 < self.now.depth }
        ensures { Reads (reads self.now.depth 1 line.ranges tokens.old.rest.now) tokens.old.rest.now result tokens.new.rest.now }
    {
        let mut all = Items::new(self.alloc);
        'parts: while tokens.sees_word(Reserved::Range) {
            all.push(self.range(tokens)?)?;
        }
        Ok(all)
    }

    /// A function.
    pub fn function(&self, tokens: &mut Cursor<'_>) -> Result<Function, ParseError>
        requires nests { Nests self.now.depth (F.pre self.now.expr) (F.post self.now.expr) }
        requires inside { 0 < self.now.depth }
        ensures { Reads (reads self.now.depth 1 line.function tokens.old.rest.now) tokens.old.rest.now result tokens.new.rest.now }
    {
        tokens.take_word(Reserved::Function)?;
        let name = self.bound(tokens)?;
        let (parameters, results) = self.signature(tokens)?;
        let values = self.exprs(tokens)?;
        tokens.take_word(Reserved::EndFun)?;
        Ok(Function {
            name,
            parameters,
            results,
            values,
        })
    }

    /// One function or more.
    #[tactic(auto, using(crate::proofs::Levels::level_function_1, crate::proofs::Firsts::first_function), unfolding(df_syntax::specs::Grammar::functions, df_forms::specs::Reading::read, df_cursor::specs::Reads::opened))]
    pub fn functions(&self, tokens: &mut Cursor<'_>) -> Result<Items<Function>, ParseError>
        requires nests { Nests self.now.depth (F.pre self.now.expr) (F.post self.now.expr) }
        requires inside { 0 < self.now.depth }
        ensures { Reads (reads self.now.depth 1 line.functions tokens.old.rest.now) tokens.old.rest.now result tokens.new.rest.now }
    {
        let first = self.function(tokens)?;
        let mut all = Items::new(self.alloc);
        all.push(first)?;
        'parts: while tokens.sees_word(Reserved::Function) {
            all.push(self.function(tokens)?)?;
        }
        Ok(all)
    }

    /// A source.
    pub fn source(&self, tokens: &mut Cursor<'_>) -> Result<Program, ParseError>
        requires nests { Nests self.now.depth (F.pre self.now.expr) (F.post self.now.expr) }
        requires inside { 0 < self.now.depth }
        ensures { Reads (reads self.now.depth 1 line.source tokens.old.rest.now) tokens.old.rest.now result tokens.new.rest.now }
    {
        let constants = self.constants(tokens)?;
        let ranges = self.ranges(tokens)?;
        let functions = self.functions(tokens)?;
        Ok(Program {
            constants,
            ranges,
            functions,
        })
    }
}
