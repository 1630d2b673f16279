//! Functions and blocks as terms, with their names bound.
ghost use Rattle.std.specs.Prelude.{◌≡◌, ◌+◌, ◌^◌, ◌<◌, None, IfOk, OnOk, length, reverse};
ghost use Rattle.df_names.specs.Maps.{bind};
ghost use Rattle.df_flattened.specs.declared.standing.Standing.TheVariants.{Own};
ghost use Rattle.df_flattened.specs.Flattened.{flatten, bodies, only_body, alone, in_block, body_flattened, standing_of, bind_some, blocks_flattened};
ghost use Rattle.df_inline.specs.Bindings.{standing_at};
ghost use Rattle.df_inline.specs.Lowered.{Gives, at_depth};

use crate::copier::Copier;
use crate::depth::Depth;
use crate::names::{Binding, Names};
use crate::table::Table;
use df_core::flat::{Block as FlatBlock, Body as FlatBody};
use df_core::terms::Term;
use df_flattened::standing::Standing;
use df_syntax::piped::{Block, Body};
use df_syntax::program::Function;
use df_syntax::tree::{Expr, Parameter};
use df_values::memory::Memory;
use df_values::name::Name;
use sqlite_items::Items;
use std::alloc::Global;

/// What the name of a block stands for.
fn standing_of(number: usize, body: &Body) -> Standing
    ensures { result ≡ standing_of number body.now }
{
    match body {
        Body::Construct { .. } | Body::Recur { .. } => Standing::Elements(number),
        Body::Fold { .. } | Body::Scalar { .. } => Standing::Outer(number),
    }
}

/// Binds the name of a block, if it has one.
fn bind_some(names: &mut Names, name: Option<Name>, standing: Standing) -> Result<(), Memory>
    ensures { OnOk result (standing_at names.new ≡ bind_some (standing_at names.old) name standing) }
{
    match name {
        None => Ok(()),
        Some(name) => {
            names.push(Binding { name, standing })?;
            Ok(())
        }
    }
}

impl<F: Fn(Global, &Table, &[Function], &Name, usize) -> Result<Option<Term>, Memory>> Copier<
    '_,
    F,
> {
    /// The body of a function with these parameters and values, behind so many locals.
    pub fn function(
        &self,
        parameters: &[Parameter],
        values: &[Expr],
        depth: usize,
    ) -> Result<Option<Term>, Memory>
        requires gives { Gives self.now.functions.now self.now.table.now (F.pre self.now.body) (F.post self.now.body) }
        requires index { self.now.index ≡ None }
        ensures { IfOk result (λ body. body ≡ at_depth (only_body (flatten (bodies (reverse self.now.functions.now))) parameters.now values.now) depth) }
    {
        let mut names = Names::new(self.alloc);
        let mut locals = Depth::of(self.alloc, depth)?;
        for parameter in parameters {
            names.push(Binding {
                name: parameter.name.name,
                standing: Standing::Local(locals.count()),
            })?;
            locals.deepen()?;
        }
        let body = self.only(values, &mut names, &mut locals)?;
        Ok(body)
    }

    /// The term of a scalar outside any range.
    fn alone(&self, expr: &Expr, names: &mut Names) -> Result<Term, Memory>
        requires gives { Gives self.now.functions.now self.now.table.now (F.pre self.now.body) (F.post self.now.body) }
        requires index { self.now.index ≡ None }
        ensures value { IfOk result (λ t. t ≡ flatten (bodies (reverse self.now.functions.now)) expr.now (alone (standing_at names.old))) }
        ensures kept { IfOk result (λ _. names.new ≡ names.old) }
    {
        let mut locals = Depth::of(self.alloc, 0)?;
        self.term(expr, names, &mut locals)
    }

    /// The term of an element of a block with this index.
    fn in_block(&self, index: Name, elem: &Expr, names: &mut Names) -> Result<Term, Memory>
        requires { Gives self.now.functions.now self.now.table.now (F.pre self.now.body) (F.post self.now.body) }
        ensures value { IfOk result (λ t. t ≡ flatten (bodies (reverse self.now.functions.now)) elem.now (in_block (standing_at names.old) index)) }
        ensures kept { IfOk result (λ _. names.new ≡ names.old) }
    {
        let outer = names.len();
        names.push(Binding {
            name: index,
            standing: Standing::Index,
        })?;
        let mut locals = Depth::of(self.alloc, 0)?;
        let inside = Copier {
            alloc: self.alloc,
            table: self.table,
            functions: self.functions,
            index: Some(index),
            body: &self.body,
        };
        let term = inside.term(elem, names, &mut locals)?;
        names.truncate(outer)?;
        Ok(term)
    }

    /// The term of an element of a recurrence with this index and this array of its own.
    fn in_recurrence(
        &self,
        index: Name,
        array: Name,
        elem: &Expr,
        names: &mut Names,
    ) -> Result<Term, Memory>
        requires { Gives self.now.functions.now self.now.table.now (F.pre self.now.body) (F.post self.now.body) }
        ensures value { IfOk result (λ t. t ≡ flatten (bodies (reverse self.now.functions.now)) elem.now (in_block (bind (standing_at names.old) array Own) index)) }
        ensures kept { IfOk result (λ _. names.new ≡ names.old) }
    {
        let outer = names.len();
        names.push(Binding {
            name: array,
            standing: Standing::Own,
        })?;
        let term = self.in_block(index, elem, names)?;
        names.truncate(outer)?;
        Ok(term)
    }

    /// What makes a block.
    fn body(&self, body: &Body, names: &mut Names) -> Result<FlatBody, Memory>
        requires gives { Gives self.now.functions.now self.now.table.now (F.pre self.now.body) (F.post self.now.body) }
        requires index { self.now.index ≡ None }
        ensures value { IfOk result (λ b. b ≡ body_flattened (flatten (bodies (reverse self.now.functions.now))) (standing_at names.old) body.now) }
        ensures kept { IfOk result (λ _. names.new ≡ names.old) }
    {
        match body {
            Body::Construct { index, lo, n, elem } => {
                let elem = self.in_block(*index, elem, names)?;
                Ok(FlatBody::Construct {
                    lo: *lo,
                    n: *n,
                    elem,
                })
            }
            Body::Fold {
                index,
                op,
                lo,
                n,
                elem,
            } => {
                let elem = self.in_block(*index, elem, names)?;
                Ok(FlatBody::Fold {
                    op: *op,
                    lo: *lo,
                    n: *n,
                    elem,
                })
            }
            Body::Recur {
                index,
                array,
                lo,
                n,
                first,
                elem,
            } => {
                let first = self.alone(first, names)?;
                let elem = self.in_recurrence(*index, *array, elem, names)?;
                Ok(FlatBody::Recurrence {
                    lo: *lo,
                    n: *n,
                    first,
                    elem,
                })
            }
            Body::Scalar { expr } => {
                let term = self.alone(expr, names)?;
                Ok(FlatBody::Scalar { term })
            }
        }
    }

    /// Blocks in order, each in the names of those before it. The first of them has this number.
    pub fn blocks(
        &self,
        blocks: &[Block],
        names: &mut Names,
        first: usize,
    ) -> Result<Items<FlatBlock>, Memory>
        requires gives { Gives self.now.functions.now self.now.table.now (F.pre self.now.body) (F.post self.now.body) }
        requires index { self.now.index ≡ None }
        requires room { first + length blocks.now < 2 ^ 64 }
        ensures { IfOk result (λ l. l ≡ blocks_flattened (flatten (bodies (reverse self.now.functions.now))) (standing_at names.old) first blocks.now) }
    {
        let mut made = Items::new(self.alloc);
        for k in 0..blocks.len() {
            let block = &blocks[k];
            let body = self.body(&block.body, names)?;
            made.push(FlatBlock {
                body,
                is_result: block.name.is_none(),
            })?;
            bind_some(names, block.name, standing_of(first + k, &block.body))?;
        }
        Ok(made)
    }
}
