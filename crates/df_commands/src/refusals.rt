//! The lines that say why a text is refused.
ghost use Rattle.std.specs.Prelude.{◌≡◌, ◌≢◌, ◌++◌, IfOk, OnOk, codes};
ghost use Rattle.std.specs.Fmt.{decimal};
ghost use Rattle.df_commands.specs.Lines.{refusal};
ghost use Rattle.df_commands.specs.Texts.{and_word, input_reason, rule_word, port_word, dual_reason};

use df_cells::cells::{CellId, Dest};
use df_dual_check::answer::DualAnswer;
use df_iotext::inputs::InputAnswer;
use df_values::bytes::Bytes;
use df_values::memory::Memory;
use df_values::name::Name;
use df_wellformed::answers::Rule;
use std::alloc::Global;

/// A number with a space before it.
pub fn push_number(line: &mut Bytes, number: u32) -> Result<(), Memory>
    ensures { OnOk result (line.new ≡ line.old ++ and_word (decimal number)) }
{
    line.push_text(" ")?;
    line.push_number(u64::from(number))
}

/// The line of a refusal for this reason.
pub fn refused(alloc: Global, reason: &str, word: &str) -> Result<Bytes, Memory>
    ensures { IfOk result (λ line. line ≡ refusal (reason.now ++ word.now)) }
{
    let mut line = Bytes::new(alloc);
    line.push_text("refused ")?;
    line.push_text(reason)?;
    line.push_text(word)?;
    line.push_text("\n")?;
    Ok(line)
}

/// The line of a refusal at a place of this number.
pub fn refused_at(alloc: Global, reason: &str, number: u32) -> Result<Bytes, Memory>
    ensures { IfOk result (λ line. line ≡ refusal (reason.now ++ and_word (decimal number))) }
{
    let mut line = Bytes::new(alloc);
    line.push_text("refused ")?;
    line.push_text(reason)?;
    push_number(&mut line, number)?;
    line.push_text("\n")?;
    Ok(line)
}

/// The line of a refusal that tells how many there are.
pub fn refused_count(alloc: Global, reason: &str, count: u64) -> Result<Bytes, Memory>
    ensures { IfOk result (λ line. line ≡ refusal (reason.now ++ and_word (decimal count))) }
{
    let mut line = Bytes::new(alloc);
    line.push_text("refused ")?;
    line.push_text(reason)?;
    line.push_text(" ")?;
    line.push_number(count)?;
    line.push_text("\n")?;
    Ok(line)
}

fn rule_word(rule: Rule) -> &'static str
    ensures { result.now ≡ rule_word rule }
{
    match rule {
        Rule::Port => "port",
        Rule::Dest => "dest",
        Rule::Source => "source",
        Rule::Control => "control",
        Rule::Out => "out",
        Rule::Loop => "loop",
        Rule::Buffer => "buffer",
        Rule::Load => "load",
    }
}

/// The line of cells that fail a rule, the cell named at which they do.
pub fn refused_by_rule(alloc: Global, rule: Rule, cell: CellId) -> Result<Bytes, Memory>
    ensures { IfOk result (λ line. line ≡ refusal (codes "BadCells" ++ (and_word (rule_word rule) ++ and_word (decimal cell.0)))) }
{
    let mut line = Bytes::new(alloc);
    line.push_text("refused BadCells ")?;
    line.push_text(rule_word(rule))?;
    push_number(&mut line, cell.0)?;
    line.push_text("\n")?;
    Ok(line)
}

/// A name with a space before it.
pub fn push_name(line: &mut Bytes, name: &Name) -> Result<(), Memory>
    ensures { OnOk result (line.new ≡ line.old ++ and_word name.now) }
{
    line.push_text(" ")?;
    line.push_slice(name.bytes())
}

// Why inputs are refused, unless memory was.
fn push_reason(line: &mut Bytes, answer: &InputAnswer) -> Result<(), Memory>
    ensures reason { OnOk result (line.new ≡ line.old ++ input_reason answer.now) }
    ensures told { OnOk result (answer.now ≢ InputAnswer.Memory) }
{
    match answer {
        InputAnswer::BadInput(number) => {
            line.push_text("BadInput")?;
            push_number(line, *number)
        }
        InputAnswer::ExtraInput(number) => {
            line.push_text("ExtraInput")?;
            push_number(line, *number)
        }
        InputAnswer::WrongLength(name, have, want) => {
            line.push_text("WrongLength")?;
            push_name(line, name)?;
            push_number(line, *have)?;
            push_number(line, *want)?;
            Ok(())
        }
        InputAnswer::MissingInput(name) => {
            line.push_text("MissingInput")?;
            push_name(line, name)?;
            Ok(())
        }
        InputAnswer::Memory => Err(Memory),
    }
}

/// The line of inputs that are refused for this. Where memory was refused, none is written.
pub fn refused_input(alloc: Global, answer: &InputAnswer) -> Result<Bytes, Memory>
    ensures line { IfOk result (λ line. line ≡ refusal (input_reason answer.now)) }
    ensures told { OnOk result (answer.now ≢ InputAnswer.Memory) }
{
    let mut line = Bytes::new(alloc);
    line.push_text("refused ")?;
    push_reason(&mut line, answer)?;
    line.push_text("\n")?;
    Ok(line)
}

// A port, as `CELL.PORT`, with a space before it.
fn push_port(line: &mut Bytes, port: Dest) -> Result<(), Memory>
    ensures { OnOk result (line.new ≡ line.old ++ and_word (port_word port)) }
{
    push_number(line, port.cell.0)?;
    line.push_text(".")?;
    line.push_number(u64::from(port.port.0))
}

// What is wrong with stages or a flow.
fn push_dual_reason(line: &mut Bytes, answer: DualAnswer) -> Result<(), Memory>
    ensures { OnOk result (line.new ≡ line.old ++ dual_reason answer) }
{
    match answer {
        DualAnswer::NotBalanced(port) => {
            line.push_text("NotBalanced")?;
            push_port(line, port)?;
            Ok(())
        }
        DualAnswer::BadFlow(cell) => {
            line.push_text("BadFlow")?;
            push_number(line, cell.0)
        }
        DualAnswer::NotEqual(value, buffers) => {
            line.push_text("NotEqual ")?;
            line.push_signed(value)?;
            push_number(line, buffers)
        }
    }
}

/// The line of cells and a flow of which this is wrong.
pub fn refused_dual(alloc: Global, answer: DualAnswer) -> Result<Bytes, Memory>
    ensures { IfOk result (λ line. line ≡ refusal (dual_reason answer)) }
{
    let mut line = Bytes::new(alloc);
    line.push_text("refused ")?;
    push_dual_reason(&mut line, answer)?;
    line.push_text("\n")?;
    Ok(line)
}
