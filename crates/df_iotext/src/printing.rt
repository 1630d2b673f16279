//! The texts that are printed: results and schedules.
ghost use Rattle.std.specs.Prelude.{◌≡◌, ◌++◌, map, IfOk, OnOk, OnErr};
ghost use Rattle.std.specs.List.{join_with_byte};
ghost use Rattle.std.specs.Fmt.{decimal};
ghost use Rattle.df_iotext.specs.Printed.{result_line, result_lines, drain_text, schedule_text};

use df_cells::schedules::Schedule;
use df_values::bytes::Bytes;
use df_values::memory::Memory;
use df_values::streams::Streams;
use df_values::values::Value;
use std::alloc::Global;

/// A line `result K =` for each list, in order from 1, with a space and the spelling of each of
/// its values behind.
pub fn print_outputs(alloc: Global, outputs: &Streams) -> Result<Bytes, Memory>
    ensures { IfOk result (λ text. text ≡ result_lines 1 outputs.now.lists) }
{
    let mut text = Bytes::new(alloc);
    for k in 0..outputs.count() {
        push_result(&mut text, u64::from(k) + 1, outputs.stream(k))?;
    }
    Ok(text)
}

/// The choices of a schedule parted by one space, ` drain N` behind them where the drain is
/// above 0, and a line feed.
pub fn print_schedule(alloc: Global, schedule: &Schedule) -> Result<Bytes, Memory>
    ensures { IfOk result (λ text. text ≡ schedule_text schedule.now) }
{
    let mut text = Bytes::new(alloc);
    push_choices(&mut text, schedule.choices.as_slice())?;
    push_drain(&mut text, schedule.drain)?;
    text.push_text("\n")?;
    Ok(text)
}

fn push_result(text: &mut Bytes, number: u64, values: &[Value]) -> Result<(), Memory>
    ensures { OnOk result (text.new ≡ text.old ++ result_line number values.now) }
{
    text.push_text("result ")?;
    text.push_number(number)?;
    text.push_text(" =")?;
    text.push_spaced_values(values)?;
    text.push_text("\n")
}

fn push_choices(text: &mut Bytes, choices: &[u32]) -> Result<(), Memory>
    ensures { OnOk result (text.new ≡ text.old ++ join_with_byte 32 (map decimal choices.now)) }
{
    for (i, choice) in choices.iter().enumerate() {
        if i > 0 {
            text.push_text(" ")?;
        }
        text.push_number(u64::from(*choice))?;
    }
    Ok(())
}

fn push_drain(text: &mut Bytes, drain: u32) -> Result<(), Memory>
    ensures { OnOk result (text.new ≡ text.old ++ drain_text drain) }
{
    if drain > 0 {
        text.push_text(" drain ")?;
        text.push_number(u64::from(drain))?;
    }
    Ok(())
}
