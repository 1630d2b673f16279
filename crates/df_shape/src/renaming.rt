//! Expressions of a source as those of a program in blocks: a number stands in place of each constant, and each array has its own
//! name.
ghost use Rattle.std.specs.Prelude.{◌≡◌, IfOk, map};
ghost use Rattle.df_names.specs.Found.{names_of};
ghost use Rattle.df_shape.specs.Renamed.{renamed, value_renamed, array_name};
ghost use Rattle.df_shape.specs.RenamedParts.{links_renamed, arms_renamed, definitions_renamed, assigns_renamed};

use crate::standing::Standing;
use df_names::NameMap;
use df_syntax::tree::{Arm, Assign, Definition, Expr, Link, Node};
use df_values::memory::Memory;
use df_values::name::Name;
use sqlite_items::{Boxed, Items};
use std::alloc::Global;

/// What copies expressions and puts what names stand for in place of them.
#[derive(Clone, Copy)]
struct Renaming<'a> {
    /// Where memory comes from.
    alloc: Global,
    /// What the names stand for.
    names: &'a NameMap<Standing>,
}

/// An expression in blocks, where the names stand for this.
pub(crate) fn renamed(alloc: Global, names: &NameMap<Standing>, expr: &Expr) -> Result<Expr, Memory>
    ensures { IfOk result (λ e. e ≡ renamed (names_of names.now) expr.now) }
{
    let renaming = Renaming { alloc, names };
    renaming.expr(expr)
}

/// Expressions in blocks, in order.
pub(crate) fn renamed_all(
    alloc: Global,
    names: &NameMap<Standing>,
    exprs: &[Expr],
) -> Result<Items<Expr>, Memory>
    ensures { IfOk result (λ l. l ≡ map (renamed (names_of names.now)) exprs.now) }
{
    let renaming = Renaming { alloc, names };
    renaming.exprs(exprs)
}

impl Renaming<'_> {
    /// What stands in place of a name: the number of a constant, and the own name of an array.
    fn value(&self, name: &Name) -> Node
        ensures { result ≡ value_renamed name.now (names_of self.now.names.now name.now) }
    {
        let standing = self.names.get(name);
        match &standing {
            Some(Standing::Constant(number)) => Node::Number { value: *number },
            Some(Standing::Array { name, .. }) => Node::Name { name: *name },
            _ => Node::Name { name: *name },
        }
    }

    /// The own name of an array.
    fn array(&self, array: &Name) -> Name
        ensures { result ≡ array_name array.now (names_of self.now.names.now array.now) }
    {
        let standing = self.names.get(array);
        match &standing {
            Some(Standing::Array { name, .. }) => *name,
            _ => *array,
        }
    }

    /// An expression.
    #[cycle(copy)]
    fn expr(&self, expr: &Expr) -> Result<Expr, Memory>
        ensures { IfOk result (λ e. e ≡ renamed (names_of self.now.names.now) expr.now) }
    {
        let node = self.node(expr)?;
        Ok(Expr {
            place: expr.place,
            node: Boxed::new(self.alloc, node)?,
        })
    }

    /// The node of an expression.
    #[cycle(copy)]
    #[tactic(auto, using(crate::proofs::RenamedForms::forms))]
    fn node(&self, expr: &Expr) -> Result<Node, Memory>
        ensures { IfOk result (λ n. n ≡ (renamed (names_of self.now.names.now) expr.now).node) }
    {
        match expr.node.get() {
            Node::Number { value } => Ok(Node::Number { value: *value }),
            Node::Truth { value } => Ok(Node::Truth { value: *value }),
            Node::Error { value, basic } => Ok(Node::Error {
                value: *value,
                basic: *basic,
            }),
            Node::Name { name } => Ok(self.value(name)),
            Node::Access { name, at } => {
                let at = self.expr(at)?;
                Ok(Node::Access {
                    name: self.array(name),
                    at,
                })
            }
            Node::Call { name, arguments } => {
                let arguments = self.exprs(arguments.as_slice())?;
                Ok(Node::Call {
                    name: *name,
                    arguments,
                })
            }
            Node::Chain { first, rest } => {
                let first = self.expr(first)?;
                let rest = self.links(rest.as_slice())?;
                Ok(Node::Chain { first, rest })
            }
            Node::Compare { rel, left, right } => {
                let left = self.expr(left)?;
                let right = self.expr(right)?;
                Ok(Node::Compare {
                    rel: *rel,
                    left,
                    right,
                })
            }
            Node::Negate { of } => {
                let of = self.expr(of)?;
                Ok(Node::Negate { of })
            }
            Node::Invert { of } => {
                let of = self.expr(of)?;
                Ok(Node::Invert { of })
            }
            Node::Parens { of } => {
                let of = self.expr(of)?;
                Ok(Node::Parens { of })
            }
            Node::Test { test, of } => {
                let of = self.expr(of)?;
                Ok(Node::Test { test: *test, of })
            }
            Node::TwoPlace { op, left, right } => {
                let left = self.expr(left)?;
                let right = self.expr(right)?;
                Ok(Node::TwoPlace {
                    op: *op,
                    left,
                    right,
                })
            }
            Node::If { arms, last } => {
                let arms = self.arms(arms.as_slice())?;
                let last = self.expr(last)?;
                Ok(Node::If { arms, last })
            }
            Node::Let {
                definitions,
                values,
            } => {
                let definitions = self.definitions(definitions.as_slice())?;
                let values = self.exprs(values.as_slice())?;
                Ok(Node::Let {
                    definitions,
                    values,
                })
            }
            Node::Construct {
                index,
                low,
                high,
                elem,
            } => {
                let low = self.expr(low)?;
                let high = self.expr(high)?;
                let elem = self.expr(elem)?;
                Ok(Node::Construct {
                    index: *index,
                    low,
                    high,
                    elem,
                })
            }
            Node::Fold {
                index,
                low,
                high,
                op,
                elem,
            } => {
                let low = self.expr(low)?;
                let high = self.expr(high)?;
                let elem = self.expr(elem)?;
                Ok(Node::Fold {
                    index: *index,
                    low,
                    high,
                    op: *op,
                    elem,
                })
            }
            Node::For {
                definitions,
                test,
                assigns,
                last,
            } => {
                let definitions = self.definitions(definitions.as_slice())?;
                let test = self.expr(test)?;
                let assigns = self.assigns(assigns.as_slice())?;
                let last = self.expr(last)?;
                Ok(Node::For {
                    definitions,
                    test,
                    assigns,
                    last,
                })
            }
            Node::Array { at, value } => {
                let at = self.expr(at)?;
                let value = self.expr(value)?;
                Ok(Node::Array { at, value })
            }
            Node::Update { name, at, value } => {
                let at = self.expr(at)?;
                let value = self.expr(value)?;
                Ok(Node::Update {
                    name: *name,
                    at,
                    value,
                })
            }
        }
    }

    /// Expressions in order.
    #[cycle(copy)]
    fn exprs(&self, exprs: &[Expr]) -> Result<Items<Expr>, Memory>
        ensures { IfOk result (λ l. l ≡ map (renamed (names_of self.now.names.now)) exprs.now) }
    {
        let mut copies = Items::new(self.alloc);
        for expr in exprs {
            copies.push(self.expr(expr)?)?;
        }
        Ok(copies)
    }

    /// Links in order.
    #[cycle(copy)]
    fn links(&self, links: &[Link]) -> Result<Items<Link>, Memory>
        ensures { IfOk result (λ l. l ≡ links_renamed (names_of self.now.names.now) links.now) }
    {
        let mut copies = Items::new(self.alloc);
        for link in links {
            let operand = self.expr(&link.operand)?;
            copies.push(Link {
                op: link.op,
                operand,
            })?;
        }
        Ok(copies)
    }

    /// Arms in order.
    #[cycle(copy)]
    fn arms(&self, arms: &[Arm]) -> Result<Items<Arm>, Memory>
        ensures { IfOk result (λ l. l ≡ arms_renamed (names_of self.now.names.now) arms.now) }
    {
        let mut copies = Items::new(self.alloc);
        for arm in arms {
            let test = self.expr(&arm.test)?;
            let value = self.expr(&arm.value)?;
            copies.push(Arm { test, value })?;
        }
        Ok(copies)
    }

    /// Definitions in order.
    #[cycle(copy)]
    fn definitions(&self, definitions: &[Definition]) -> Result<Items<Definition>, Memory>
        ensures { IfOk result (λ l. l ≡ definitions_renamed (names_of self.now.names.now) definitions.now) }
    {
        let mut copies = Items::new(self.alloc);
        for definition in definitions {
            let value = self.expr(&definition.value)?;
            copies.push(Definition {
                name: definition.name,
                sort: definition.sort,
                value,
            })?;
        }
        Ok(copies)
    }

    /// Assignments in order.
    #[cycle(copy)]
    fn assigns(&self, assigns: &[Assign]) -> Result<Items<Assign>, Memory>
        ensures { IfOk result (λ l. l ≡ assigns_renamed (names_of self.now.names.now) assigns.now) }
    {
        let mut copies = Items::new(self.alloc);
        for assign in assigns {
            let value = self.expr(&assign.value)?;
            copies.push(Assign {
                name: assign.name,
                value,
            })?;
        }
        Ok(copies)
    }
}
