//! The body of the main function, put into blocks.
ghost use Rattle.std.specs.Prelude.{◌≡◌, ◌++◌, ◌∷◌, [], length, IfOk, OnOk, Option};
ghost use Rattle.df_names.specs.Found.{names_of};
ghost use Rattle.df_syntax.specs.declared.piped.Outcome.TheVariants as outcome;
ghost use Rattle.df_syntax.specs.SourceForms.{form};
ghost use Rattle.df_shape.specs.Shaped.{standing_by, body_of, name_standing, define, each_result, blocks_of, main_blocks};
ghost use Rattle.df_shape.specs.Bounded.{HaveBounds};
ghost use Rattle.df_shape.specs.Building.{made_of, parts_of, with_parts, definitions_made, alias_of, outcome_of, result_parts};

use crate::bodies::Bodies;
use crate::forms::{bare, is_let};
use crate::standing::Standing;
use df_names::NameMap;
use df_syntax::piped::{Block, Outcome};
use df_syntax::tree::{Definition, Expr, Node, Sort};
use df_values::memory::Memory;
use df_values::name::Name;
use df_values::values::Integer;
use sqlite_items::Items;
use std::alloc::Global;

/// A body as far as it is put into blocks.
#[derive(Drop)]
pub(crate) struct Building {
    /// What the names stand for.
    pub names: NameMap<Standing>,
    /// The blocks so far.
    pub blocks: Items<Block>,
    /// The results so far.
    pub results: Items<Outcome>,
}

/// What puts a body into blocks.
#[derive(Clone, Copy)]
pub(crate) struct Builder<'a> {
    /// Where memory comes from.
    pub alloc: Global,
    /// The numbers of the constants.
    pub numbers: &'a NameMap<Integer>,
}

/// What a definition that is a plain array name stands for.
fn alias_of(sort: Sort, standing: &Option<Standing>) -> Option<Standing>
    ensures { result ≡ alias_of sort standing.now }
{
    match (sort, standing) {
        (Sort::Array(_), Some(Standing::Array { outcome, name })) => Some(Standing::Array {
            outcome: *outcome,
            name: *name,
        }),
        _ => None,
    }
}

/// What a result that is a plain array name is.
fn outcome_of(sort: Sort, standing: &Option<Standing>) -> Option<Outcome>
    ensures { result ≡ outcome_of sort standing.now }
{
    match (sort, standing) {
        (Sort::Array(_), Some(Standing::Array { outcome, .. })) => Some(*outcome),
        _ => None,
    }
}

/// What a name stands for that is defined as this.
pub(crate) fn standing_by(sort: Sort, outcome: Outcome, name: Name) -> Standing
    ensures { result ≡ standing_by sort outcome name }
{
    match sort {
        Sort::Basic(_) => Standing::Scalar(outcome),
        Sort::Array(_) => Standing::Array { outcome, name },
    }
}

/// The place of the next block. There is no room for more than `u32::MAX` blocks.
fn next(blocks: &Items<Block>) -> Result<Outcome, Memory>
    ensures { IfOk result (λ o. o ≡ outcome.Block (length blocks.now)) }
{
    match u32::try_from(blocks.len()) {
        Ok(place) => Ok(Outcome::Block(place)),
        Err(_) => Err(Memory),
    }
}

impl Builder<'_> {
    /// What the name that an expression is stands for.
    fn named(&self, names: &NameMap<Standing>, expr: &Expr) -> Option<Standing>
        ensures { result ≡ name_standing (names_of self.now.numbers.now) (names_of names.now) (form expr.now) }
    {
        match bare(expr).node.get() {
            Node::Name { name } => names.get(name),
            _ => None,
        }
    }

    /// One block more.
    fn add(
        &self,
        name: Option<Name>,
        sort: Sort,
        value: &Expr,
        made: &mut Building,
    ) -> Result<Outcome, Memory>
        ensures outcome { IfOk result (λ o. o ≡ outcome.Block (length made.old.blocks)) }
        ensures blocks { OnOk result (made.new.blocks ≡ made.old.blocks ++ record { name = name; body = body_of (names_of self.now.numbers.now) (names_of made.old.names) sort value.now } ∷ []) }
        ensures bounds { OnOk result (HaveBounds made.old.blocks → HaveBounds made.new.blocks) }
        ensures names { OnOk result (names_of made.new.names ≡ names_of made.old.names) }
        ensures results { OnOk result (made.new.results ≡ made.old.results) }
    {
        let outcome = next(&made.blocks)?;
        let bodies = Bodies {
            alloc: self.alloc,
            numbers: self.numbers,
            names: &made.names,
        };
        let body = bodies.body(sort, value)?;
        made.blocks.push(Block { name, body })?;
        Ok(outcome)
    }

    /// A definition.
    fn define(&self, definition: &Definition, made: &mut Building) -> Result<(), Memory>
        ensures made { OnOk result (made_of made.new ≡ define (names_of self.now.numbers.now) (made_of made.old) definition.now.name definition.now.sort definition.now.value) }
        ensures bounds { OnOk result (HaveBounds made.old.blocks → HaveBounds made.new.blocks) }
        ensures results { OnOk result (made.new.results ≡ made.old.results) }
    {
        let name = definition.name.name;
        let sort = definition.sort;
        let standing = self.named(&made.names, &definition.value);
        match alias_of(sort, &standing) {
            Some(array) => {
                made.names.bind(name, array)?;
            }
            None => {
                let outcome = self.add(Some(name), sort, &definition.value, made)?;
                made.names.bind(name, standing_by(sort, outcome, name))?;
            }
        }
        Ok(())
    }

    /// Definitions one after the other.
    fn definitions(&self, definitions: &[Definition], made: &mut Building) -> Result<(), Memory>
        ensures made { OnOk result (made_of made.new ≡ definitions_made (names_of self.now.numbers.now) (made_of made.old) definitions.now) }
        ensures bounds { OnOk result (HaveBounds made.old.blocks → HaveBounds made.new.blocks) }
        ensures results { OnOk result (made.new.results ≡ made.old.results) }
    {
        for definition in definitions {
            self.define(definition, made)?;
        }
        Ok(())
    }

    /// A result.
    fn result(&self, sort: Sort, value: &Expr, made: &mut Building) -> Result<(), Memory>
        ensures parts { OnOk result (parts_of made.new ≡ with_parts made.old (result_parts (names_of self.now.numbers.now) (made_of made.old) sort value.now)) }
        ensures bounds { OnOk result (HaveBounds made.old.blocks → HaveBounds made.new.blocks) }
        ensures names { OnOk result (names_of made.new.names ≡ names_of made.old.names) }
    {
        let standing = self.named(&made.names, value);
        let outcome = match outcome_of(sort, &standing) {
            Some(outcome) => outcome,
            None => self.add(None, sort, value, made)?,
        };
        made.results.push(outcome)?;
        Ok(())
    }

    /// Results by their types, as far as there are both.
    fn results(&self, values: &[Expr], sorts: &[Sort], made: &mut Building) -> Result<(), Memory>
        ensures parts { OnOk result (parts_of made.new ≡ with_parts made.old (each_result (names_of self.now.numbers.now) values.now (made_of made.old) sorts.now)) }
        ensures bounds { OnOk result (HaveBounds made.old.blocks → HaveBounds made.new.blocks) }
    {
        let mut place = 0;
        while place < values.len() && place < sorts.len() {
            self.result(sorts[place], &values[place], made)?;
            place += 1;
        }
        Ok(())
    }

    /// The only result.
    fn only(&self, value: &Expr, sorts: &[Sort], made: &mut Building) -> Result<(), Memory>
        ensures parts { OnOk result (parts_of made.new ≡ with_parts made.old (each_result (names_of self.now.numbers.now) (value.now ∷ []) (made_of made.old) sorts.now)) }
        ensures bounds { OnOk result (HaveBounds made.old.blocks → HaveBounds made.new.blocks) }
    {
        match sorts {
            [sort, ..] => self.result(*sort, value, made),
            _ => Ok(()),
        }
    }

    /// A body: a list of results, or one `let` whose body is such a body.
    #[cycle(spine)]
    pub fn body(&self, values: &[Expr], sorts: &[Sort], made: &mut Building) -> Result<(), Memory>
        ensures parts { OnOk result (parts_of made.new ≡ with_parts made.old (main_blocks (names_of self.now.numbers.now) values.now (made_of made.old) sorts.now)) }
        ensures bounds { OnOk result (HaveBounds made.old.blocks → HaveBounds made.new.blocks) }
    {
        if values.len() == 1 {
            self.value(&values[0], sorts, made)
        } else {
            self.results(values, sorts, made)
        }
    }

    /// The only value of a body.
    #[cycle(spine)]
    fn value(&self, value: &Expr, sorts: &[Sort], made: &mut Building) -> Result<(), Memory>
        ensures parts { OnOk result (parts_of made.new ≡ with_parts made.old (blocks_of (names_of self.now.numbers.now) value.now (made_of made.old) sorts.now)) }
        ensures bounds { OnOk result (HaveBounds made.old.blocks → HaveBounds made.new.blocks) }
    {
        match value.node.get() {
            Node::Let {
                definitions,
                values,
            } => {
                self.definitions(definitions.as_slice(), made)?;
                self.body(values.as_slice(), sorts, made)
            }
            Node::Parens { of } => {
                if is_let(value) {
                    self.value(of, sorts, made)
                } else {
                    self.only(value, sorts, made)
                }
            }
            _ => self.only(value, sorts, made),
        }
    }
}
