//! The lines that say why a source is refused.
ghost use Rattle.std.specs.Prelude.{◌≡◌, ◌≢◌, ◌++◌, IfOk, OnOk, codes};
ghost use Rattle.df_commands.specs.Lines.{refusal};
ghost use Rattle.df_commands.specs.Texts.{and_word};
ghost use Rattle.df_commands.specs.ProgramTexts.{and_place, check_reason, form_word, parse_reason, shape_reason};

use crate::refusals::{push_name, push_number};
use df_grammar::ParseAnswer;
use df_io::Place;
use df_shape::ShapeAnswer;
use df_syntax::form::Form;
use df_types::CheckAnswer;
use df_values::bytes::Bytes;
use df_values::memory::Memory;
use df_values::name::Name;
use std::alloc::Global;

// A place, as `LINE:COLUMN`, with a space before it.
fn push_place(line: &mut Bytes, place: Place) -> Result<(), Memory>
    ensures { OnOk result (line.new ≡ line.old ++ and_place place) }
{
    push_number(line, place.line)?;
    line.push_text(":")?;
    line.push_number(u64::from(place.column))
}

// A reason with its place.
fn push_at(line: &mut Bytes, reason: &str, place: Place) -> Result<(), Memory>
    ensures { OnOk result (line.new ≡ line.old ++ (reason.now ++ and_place place)) }
{
    line.push_text(reason)?;
    push_place(line, place)?;
    Ok(())
}

// A reason with a name and its place.
fn push_name_at(line: &mut Bytes, reason: &str, name: &Name, place: Place) -> Result<(), Memory>
    ensures { OnOk result (line.new ≡ line.old ++ (reason.now ++ (and_word name.now ++ and_place place))) }
{
    line.push_text(reason)?;
    push_name(line, name)?;
    push_place(line, place)?;
    Ok(())
}

/// The line of a source that is refused for this reason at this place.
pub fn refused_place(alloc: Global, reason: &str, place: Place) -> Result<Bytes, Memory>
    ensures { IfOk result (λ line. line ≡ refusal (reason.now ++ and_place place)) }
{
    let mut line = Bytes::new(alloc);
    line.push_text("refused ")?;
    push_at(&mut line, reason, place)?;
    line.push_text("\n")?;
    Ok(line)
}

// The line of a source that is refused for this reason and name at this place.
fn refused_name(alloc: Global, reason: &str, name: &Name, place: Place) -> Result<Bytes, Memory>
    ensures { IfOk result (λ line. line ≡ refusal (reason.now ++ (and_word name.now ++ and_place place))) }
{
    let mut line = Bytes::new(alloc);
    line.push_text("refused ")?;
    push_name_at(&mut line, reason, name, place)?;
    line.push_text("\n")?;
    Ok(line)
}

/// The line of a source whose names or types are refused for this. Where memory was refused, none is written.
pub fn refused_check(alloc: Global, answer: &CheckAnswer) -> Result<Bytes, Memory>
    ensures line { IfOk result (λ line. line ≡ refusal (check_reason answer.now)) }
    ensures told { OnOk result (answer.now ≢ CheckAnswer.Memory) }
{
    match answer {
        CheckAnswer::UnknownName(name, place) => refused_name(alloc, "UnknownName", name, *place),
        CheckAnswer::NameTwice(name, place) => refused_name(alloc, "NameTwice", name, *place),
        CheckAnswer::WrongType(place) => refused_place(alloc, "WrongType", *place),
        CheckAnswer::WrongArity(place) => refused_place(alloc, "WrongArity", *place),
        CheckAnswer::BadRange(name, place) => refused_name(alloc, "BadRange", name, *place),
        CheckAnswer::Memory => Err(Memory),
    }
}

/// The line of tokens that are refused for this. Where memory was refused, none is written.
pub fn refused_parse(alloc: Global, answer: &ParseAnswer) -> Result<Bytes, Memory>
    ensures line { IfOk result (λ line. line ≡ refusal (parse_reason answer.now)) }
    ensures told { OnOk result (answer.now ≢ ParseAnswer.Memory) }
{
    match answer {
        ParseAnswer::Syntax(place) => refused_place(alloc, "Syntax", *place),
        ParseAnswer::TooDeep(place) => refused_place(alloc, "TooDeep", *place),
        ParseAnswer::Unsupported(name, place) => refused_name(alloc, "Unsupported", name, *place),
        ParseAnswer::Memory => Err(Memory),
    }
}

// The word of a rule on the form.
fn form_word(form: Form) -> &'static str
    ensures { result.now ≡ form_word form }
{
    match form {
        Form::ArrayParameter => "array-parameter",
        Form::Block => "block",
        Form::ArrayIf => "array-if",
        Form::ArrayDefinition => "array-definition",
        Form::ArrayValue => "array-value",
        Form::Recurrence => "recurrence",
        Form::Subscript => "subscript",
    }
}

// The line of a source that breaks this rule on its form at this place.
fn refused_form(alloc: Global, form: Form, place: Place) -> Result<Bytes, Memory>
    ensures { IfOk result (λ line. line ≡ refusal (codes "NotPiped" ++ (and_word (form_word form) ++ and_place place))) }
{
    let mut line = Bytes::new(alloc);
    line.push_text("refused NotPiped ")?;
    line.push_text(form_word(form))?;
    push_place(&mut line, place)?;
    line.push_text("\n")?;
    Ok(line)
}

/// The line of a source whose form is refused for this. Where memory was refused, none is written.
pub fn refused_shape(alloc: Global, answer: &ShapeAnswer) -> Result<Bytes, Memory>
    ensures line { IfOk result (λ line. line ≡ refusal (shape_reason answer.now)) }
    ensures told { OnOk result (answer.now ≢ ShapeAnswer.Memory) }
{
    match answer {
        ShapeAnswer::LaterFunction(name, place) => {
            refused_name(alloc, "LaterFunction", name, *place)
        }
        ShapeAnswer::NotManifest(place) => refused_place(alloc, "NotManifest", *place),
        ShapeAnswer::RangeTooLong(place) => refused_place(alloc, "RangeTooLong", *place),
        ShapeAnswer::EmptyReduce(place) => refused_place(alloc, "EmptyReduce", *place),
        ShapeAnswer::NotPiped(form, place) => refused_form(alloc, *form, *place),
        ShapeAnswer::Memory => Err(Memory),
    }
}
