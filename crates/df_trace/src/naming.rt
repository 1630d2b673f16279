//! What happens in the event that a line names.
ghost use Rattle.std.specs.Prelude.{◌≡◌, ◌≢◌, ◌∷◌, ◌++◌, ◌<◌, ℕ, List, false, MatchOption, Some, IfSome, IfNone};
ghost use Rattle.df_values.specs.Decimals.{LeadsWith, begins_with_digit};
ghost use Rattle.df_cells.specs.declared.cells.Dest as dest;
ghost use Rattle.df_machine.specs.Events.{action_of};
ghost use Rattle.df_machine.specs.Laws.{IsOfCells};
ghost use Rattle.df_machine.specs.declared.packets.Event as event;
ghost use Rattle.df_trace.specs.Lines.{port_text, line_of};

use df_cells::cells::{CellId, Dest, Port};
use df_machine::packets::Action;
use df_values::decimals::leading_number;
use df_values::laws::leads_with_one_number;

// What stands behind a byte at the front of a text.
fn after(text: &[u8], byte: u8) -> Option<&[u8]>
    ensures some { IfSome result (λ rest. text.now ≡ byte ∷ rest.now) }
    ensures none { IfNone result ((rest : List ℕ) → text.now ≢ byte ∷ rest) }
{
    let (first, rest) = text.split_first()?;
    if *first == byte { Some(rest) } else { None }
}

// What stands behind a letter and a space at the front of a line.
fn behind(line: &[u8], letter: u8) -> Option<&[u8]>
    ensures some { IfSome result (λ rest. line.now ≡ letter ∷ 32 ∷ rest.now) }
    ensures none { IfNone result ((rest : List ℕ) → line.now ≢ letter ∷ 32 ∷ rest) }
{
    after(after(line, letter)?, b' ')
}

// The cell whose number a text leads with, and what stands behind it.
fn leading_cell(text: &[u8]) -> Option<(CellId, &[u8])>
    ensures { (c : ℕ) (rest : List ℕ) → c < 65536 → LeadsWith text.now c rest
        → MatchOption result ⊥ (λ found. (found.0.0 ≡ c) × (found.1.now ≡ rest)) }
{
    leads_with_one_number();
    let (number, length) = leading_number(text)?;
    match u32::try_from(number) {
        Ok(cell) => Some((CellId(cell), &text[length..])),
        Err(_) => None,
    }
}

// The number of a port that a text leads with, and what stands behind it.
fn leading_place(text: &[u8]) -> Option<(Port, &[u8])>
    ensures { (p : ℕ) (rest : List ℕ) → p < 3 → LeadsWith text.now p rest
        → MatchOption result ⊥ (λ found. (found.0.0 ≡ p) × (found.1.now ≡ rest)) }
{
    leads_with_one_number();
    let (number, length) = leading_number(text)?;
    match u8::try_from(number) {
        Ok(port) => Some((Port(port), &text[length..])),
        Err(_) => None,
    }
}

// The port that a text leads with.
fn leading_port(text: &[u8]) -> Option<Dest>
    ensures { (d : dest.Dest) (rest : List ℕ) → d.cell.0 < 65536 → d.port.0 < 3 → begins_with_digit rest ≡ false
        → text.now ≡ port_text d ++ rest → result ≡ Some d }
{
    let (cell, digits) = leading_cell(text)?;
    let (port, _) = leading_place(after(digits, b'.')?)?;
    Some(Dest { cell, port })
}

/// What happens in the event of a cell below 65,536, or at a port below 3 of one, whose line this is. Other texts may have an answer too.
pub fn action_in(line: &[u8]) -> Option<Action>
    ensures { (event : event.Event) → IsOfCells 65536 event → line.now ≡ line_of event → result ≡ Some (action_of event) }
{
    if let Some(rest) = behind(line, b'F') {
        return match leading_cell(rest) {
            Some((cell, _)) => Some(Action::Fire(cell)),
            None => None,
        };
    }
    if let Some(rest) = behind(line, b'D') {
        return match leading_cell(rest) {
            Some((cell, _)) => Some(Action::Perform(cell)),
            None => None,
        };
    }
    if let Some(rest) = behind(line, b'R') {
        return match leading_port(rest) {
            Some(port) => Some(Action::Arrive(port)),
            None => None,
        };
    }
    if let Some(rest) = behind(line, b'A') {
        return match leading_port(rest) {
            Some(port) => Some(Action::Ack(port)),
            None => None,
        };
    }
    None
}
