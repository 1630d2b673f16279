//! What a command writes, or why it writes nothing.
ghost use Rattle.std.specs.Prelude.{◌≡◌, ◌≤◌, length, map, All, IsTrue, IsErrOf, string_bytes};
ghost use Rattle.df_io.specs.Faults.{HasReadCause};
ghost use Rattle.df_io.specs.declared.files.FileMode.{FileMode};
ghost use Rattle.df_commands.specs.Commands.{texts_of, written_by};
ghost use Rattle.df_commands.specs.Verdicts.{Judges, JudgesTexts};
ghost use Rattle.df_commands.specs.Plans.{order_meant};
ghost use Rattle.df_commands.specs.Judged.{Settles, HasAbsenceCause};

use crate::check::check;
use crate::command::{Command, Order};
use crate::compile::compile;
use crate::eval::eval;
use crate::go::go;
use crate::lockstep::lockstep;
use crate::migrate::migrate;
use crate::plan::Plan;
use crate::reads::texts_of;
use crate::replay::replay;
use crate::run::run;
use crate::stop::Stop;
use crate::trace::trace;
use crate::verify::verify;
use df_io::{FileMode, Files};
use df_values::bytes::Bytes;
use std::alloc::Global;

// What a command makes of its texts.
fn plan_of<'a>(
    alloc: Global,
    command: Command,
    texts: &[Bytes],
    writes: &'a [String],
) -> Result<Plan<'a>, Stop>
    requires texts { length texts.now ≡ length (texts_of command) }
    requires short { All (λ text. length text ≤ 67_108_864) texts.now }
    requires writes { length writes.now ≡ written_by command }
    ensures settles { Settles (JudgesTexts command texts.now (map string_bytes writes.now)) result }
    ensures no_fault { IsErrOf result Stop.ReadFault → ⊥ }
{
    match command {
        Command::Check => check(alloc, texts[0].as_slice()),
        Command::Eval => eval(alloc, texts[0].as_slice(), texts[1].as_slice()),
        Command::Compile => compile(alloc, texts[0].as_slice(), &writes[0], &writes[1]),
        Command::Go => go(
            alloc,
            texts[0].as_slice(),
            texts[1].as_slice(),
            texts[2].as_slice(),
            &writes[0],
            &writes[1],
        ),
        Command::Run => run(
            alloc,
            texts[0].as_slice(),
            texts[1].as_slice(),
            texts[2].as_slice(),
        ),
        Command::Trace => trace(
            alloc,
            texts[0].as_slice(),
            texts[1].as_slice(),
            texts[2].as_slice(),
        ),
        Command::Replay => replay(
            alloc,
            texts[0].as_slice(),
            texts[1].as_slice(),
            texts[2].as_slice(),
        ),
        Command::Verify => verify(alloc, texts[0].as_slice(), texts[1].as_slice()),
        Command::Migrate => migrate(alloc, texts[0].as_slice(), &writes[0]),
        Command::Lockstep => lockstep(alloc, texts[0].as_slice(), texts[1].as_slice()),
    }
}

/// Reads the files of a command, judges their texts in their order, and does what they ask for. Nothing is written yet.
pub fn plan_for<'a, F: Files>(
    alloc: Global,
    files: &mut F,
    order: Order<'a>,
) -> Result<Plan<'a>, Stop>
    requires idle { F.mode files.old ≡ FileMode.Idle }
    requires reads { length order.reads.now ≡ length (texts_of order.command) }
    requires writes { length order.writes.now ≡ written_by order.command }
    ensures mode { F.mode files.new ≡ FileMode.Idle }
    ensures holds { IsTrue F.tells → (F.told files.new).holds ≡ (F.told files.old).holds }
    ensures settles { IsTrue F.tells → Settles (Judges (order_meant order.entry) (F.told files.old).holds) result }
    ensures fault { HasAbsenceCause F.tells (F.faults files.old) (F.faults files.new) result (order_meant order.entry) (F.told files.old).holds }
    ensures counts { HasReadCause ⊥ (F.faults files.old) (F.faults files.new) }
{
    let texts = texts_of(alloc, files, order.reads, order.command.texts())?;
    plan_of(alloc, order.command, texts.as_slice(), order.writes)
}
