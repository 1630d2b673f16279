//! `check`: a source is told to be right.
ghost use Rattle.std.specs.Prelude.{◌≡◌, ◌≤◌, length, IfOk, IsErrOf};
ghost use Rattle.df_commands.specs.Lines.{line};
ghost use Rattle.df_commands.specs.Judged.{Settles};
ghost use Rattle.df_commands.specs.Verdicts.{JudgesCheck};
ghost use Rattle.std.specs.Prelude.{codes};

use crate::plan::Plan;
use crate::programs::judge_program;
use crate::stop::Stop;
use df_values::bytes::Bytes;
use df_values::memory::Memory;
use std::alloc::Global;

fn ok_line(alloc: Global) -> Result<Bytes, Memory>
    ensures { IfOk result (λ text. text ≡ line (codes "ok")) }
{
    let mut text = Bytes::new(alloc);
    text.push_text("ok\n")?;
    Ok(text)
}

/// Tells that the source is right, where it is.
pub fn check<'a>(alloc: Global, source: &[u8]) -> Result<Plan<'a>, Stop>
    requires { length source.now ≤ 4294967294 }
    ensures settles { Settles (JudgesCheck source.now) result }
    ensures no_fault { IsErrOf result Stop.ReadFault → ⊥ }
{
    judge_program(alloc, source)?;
    Ok(Plan::of_text(alloc, ok_line(alloc)?, true))
}
