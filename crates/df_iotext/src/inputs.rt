//! The text of inputs.
ghost use Rattle.std.specs.Prelude.{◌≡◌, ◌≢◌, ◌≤◌, ◌↔◌, ℕ, map, length, IsTrue, Some, None, Ok, Err, IfOk, OnOk, IfErr, IfSome, IfNone, slice_get};
ghost use Rattle.std.specs.List.{list_all};
ghost use Rattle.df_values.specs.Inputs.{AreValid};
ghost use Rattle.df_cells.specs.declared.cells.InputDecl as input_decl;
ghost use Rattle.df_iotext.specs.Inputs.{Given, nothing_given, TakesLine, RefusesLine, ReadsInputs, HaveOwnNames};
ghost use Rattle.df_cells.specs.Cells.{declaration_of};
ghost use Rattle.df_iotext.specs.Readers.{place_of_name, HasGiven, HasPlaces, IsFirstPlaced, has_type, FitValues, RefusesValues};
ghost use Rattle.df_iotext.specs.declared.inputs.InputAnswer.TheVariants.{Memory as NoMemory};

use crate::assignments::{is_idle, read_assignment};
use crate::keys::Places;
use crate::lines::first_line;
use crate::lists::Lists;
use df_cells::cells::InputDecl;
use df_values::memory::Memory;
use df_values::name::Name;
use df_values::streams::Streams;
use df_values::values::{Basic, ErrorValue, Value};
use std::alloc::Global;

/// Why no inputs were read. Lines are counted from 1.
#[derive(Clone, Copy, Debug, PartialEq, Eq)]
pub enum InputAnswer {
    /// This line isn't of the form `name = values`, or a value isn't of the input's type.
    BadInput(u32),
    /// This line names no input, or one that was given before.
    ExtraInput(u32),
    /// So many values were given for the input of this name, and not as many as declared.
    WrongLength(Name, u32, u32),
    /// The input of this name was not given.
    MissingInput(Name),
    /// Memory was refused.
    Memory,
}

impl From<Memory> for InputAnswer {
    ghost from_gives = { λ _ answer. answer ≡ NoMemory };

    fn from(_refused: Memory) -> InputAnswer {
        InputAnswer::Memory
    }
}

/// The inputs that are still to be given, each under its name, and what was given for the others.
#[derive(Drop)]
struct Reader<'a> {
    open: Places<'a>,
    inputs: Lists,
}

impl<'a> Reader<'a> {
    // Nothing was given.
    fn new(alloc: Global, decls: &'a [InputDecl]) -> Result<Reader<'a>, Memory>
        requires { HaveOwnNames decls.now }
        ensures { IfOk result (λ reader.
            HasGiven decls.now reader.open reader.inputs (nothing_given decls.now)) }
    {
        Ok(Reader {
            open: all_places(alloc, decls)?,
            inputs: Lists::empty(alloc, decls.len())?,
        })
    }

    // Takes a line, which has this number.
    fn take_line(
        &mut self,
        alloc: Global,
        decls: &[InputDecl],
        line: &[u8],
        number: u32,
    ) -> Result<(), InputAnswer>
        requires state { (given : Given)
            × HasGiven decls.now self.old.open self.old.inputs given }
        requires short { length line.now ≤ 4294967294 }
        ensures taken { OnOk result ((given : Given)
            → HasGiven decls.now self.old.open self.old.inputs given
            → (after : Given) × (TakesLine decls.now given line.now after
            × HasGiven decls.now self.new.open self.new.inputs after)) }
        ensures refused { IfErr result (λ answer. answer ≢ InputAnswer.Memory
            → (given : Given) → HasGiven decls.now self.old.open self.old.inputs given
            → RefusesLine decls.now given line.now number answer) }
    {
        if is_idle(line) {
            return Ok(());
        }
        let Some(assignment) = read_assignment(alloc, line)? else {
            return Err(InputAnswer::BadInput(number));
        };
        let Some(k) = self.open.take(assignment.name) else {
            return Err(InputAnswer::ExtraInput(number));
        };
        check_values(&decls[k], &assignment.values, number)?;
        self.inputs.put(k, assignment.values);
        Ok(())
    }

    // The name of the first input that was not given.
    fn first_missing(&self, decls: &[InputDecl]) -> Option<Name>
        ensures some { IfSome result (λ name. (k : ℕ) × ((decl : input_decl.InputDecl)
            × (IsFirstPlaced decls.now self.now.open k decl × (decl.name ≡ name)))) }
        ensures none { IfNone result ((k : ℕ) (decl : input_decl.InputDecl)
            → slice_get decls.now k ≡ Some decl
            → place_of_name self.now.open decl.name ≡ None) }
    {
        for decl in decls {
            if self.open.has(decl.name.bytes()) {
                return Some(decl.name);
            }
        }
        None
    }
}

// The number of each input under its name.
fn all_places<'a>(alloc: Global, decls: &'a [InputDecl]) -> Result<Places<'a>, Memory>
    requires { HaveOwnNames decls.now }
    ensures { IfOk result (λ places. HasPlaces decls.now places (length decls.now)) }
{
    let mut open = Places::new(alloc);
    for (k, decl) in decls.iter().enumerate() {
        open.put(decl.name.bytes(), k)?;
    }
    Ok(open)
}

// Whether these values are as declared; line `number` gave them.
fn check_values(decl: &InputDecl, values: &[Value], number: u32) -> Result<(), InputAnswer>
    requires { length values.now ≤ 4294967294 }
    ensures fine { OnOk result (FitValues decl.now values.now) }
    ensures refused { IfErr result (RefusesValues decl.now values.now number) }
{
    if !all_have_type(decl.basic, values) {
        return Err(InputAnswer::BadInput(number));
    }
    let count = values.len() as u32;
    if count != decl.length {
        return Err(InputAnswer::WrongLength(decl.name, count, decl.length));
    }
    Ok(())
}

fn all_have_type(basic: Basic, values: &[Value]) -> bool
    ensures { result ≡ list_all (has_type basic) values.now }
{
    values.iter().all(|value| has_type(basic, *value))
}

// Whether a value is of this type.
fn has_type(basic: Basic, value: Value) -> bool
    ensures { result ≡ has_type basic value }
{
    match (basic, value) {
        (Basic::Integer, Value::Truth(_)) => false,
        (Basic::Integer, _) => true,
        (Basic::Boolean, Value::Truth(_)) => true,
        (Basic::Boolean, Value::Error(error)) => {
            error == ErrorValue::Undef || error == ErrorValue::MissElt
        }
        (Basic::Boolean, Value::Int(_)) => false,
    }
}

/// The inputs of a text, in the order of `decls`.
///
/// Each line is `name = values`, where blanks part the values and may stand around the name; the
/// values are as declared of the input of that name. Blanks are spaces and tabs. Empty lines and
/// lines whose first byte behind blanks is `%` give nothing. The first line that is refused
/// decides, and after all lines the first input that was not given.
///
/// It needs inputs of different names, and a text of at most 4,294,967,294 bytes.
pub fn read_inputs(
    alloc: Global,
    text: &[u8],
    decls: &Vec<InputDecl>,
) -> Result<Streams, InputAnswer>
    requires names { HaveOwnNames decls.now.items }
    requires short { length text.now ≤ 4294967294 }
    ensures found { IfOk result (λ inputs. ReadsInputs text.now decls.now.items (Ok inputs.lists)) }
    ensures valid { IfOk result (λ inputs.
        AreValid (map declaration_of decls.now.items) inputs.lists) }
    ensures refused { IfErr result (λ answer. answer ≢ InputAnswer.Memory
        → ReadsInputs text.now decls.now.items (Err answer)) }
{
    let mut reader = Reader::new(alloc, decls)?;
    let mut rest = text;
    let mut number = 0;
    while let Some((line, behind)) = first_line(rest) {
        number += 1;
        reader.take_line(alloc, decls, line, number)?;
        rest = behind;
    }
    match reader.first_missing(decls) {
        Some(name) => Err(InputAnswer::MissingInput(name)),
        None => Ok(reader.inputs.into_streams(alloc)?),
    }
}
