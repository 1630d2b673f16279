//! The top call.
ghost use Rattle.std.specs.Prelude.{◌≡◌, ◌⊎◌, length, map, IsTrue, string_bytes};
ghost use Rattle.df_io.specs.Faults.{Rises, HasWriteCause, HasSinkCause};
ghost use Rattle.df_io.specs.declared.files.FileMode.{FileMode};
ghost use Rattle.df_commands.specs.Commands.{order_of, texts_of, written_by};
ghost use Rattle.df_commands.specs.Plans.{order_meant, effect_of};
ghost use Rattle.df_top.specs.Endings.{Ends, HasWitness, FitsWords, Writes};
ghost use Rattle.df_top.specs.Causes.{IsAbsent, KeepsCounts, Completes, NoFaults};
ghost use Rattle.df_top.specs.Carried.{StandsFor, IsCarriedOut, ended};

use crate::status::Status;
use crate::writes::write_files;
use df_commands::command::{Order, order_of};
use df_commands::ending::say;
use df_commands::laws::has_one_verdict;
use df_commands::plan::Plan;
use df_commands::planned::plan_for;
use df_commands::stop::Stop;
use df_io::{Fault, FileMode, Files, Sink, write_out};
use std::alloc::Global;

const USAGE: &[u8] = b"usage: valflow COMMAND ARGUMENTS\n";

// The status where the write succeeded, and else why it didn't.
fn ended(written: Result<(), Fault>, status: Status) -> Status
    ensures { result ≡ ended written status }
{
    match written {
        Ok(()) => status,
        Err(Fault::Failed) => Status::WriteFault,
        Err(Fault::Memory) => Status::Memory,
    }
}

// Makes the files, and then writes what goes to the sink.
fn carry_out<F: Files, K: Sink>(files: &mut F, out: &mut K, plan: Plan<'_>) -> Status
    requires { F.mode files.old ≡ FileMode.Idle }
    ensures mode { F.mode files.new ≡ FileMode.Idle }
    ensures stands { IsTrue F.tells → StandsFor (effect_of plan.entry) result (IsTrue K.tells)
        (record { holds = (F.told files.old).holds; written = K.written out.old })
        (record { holds = (F.told files.new).holds; written = K.written out.new }) }
    ensures no_other { IsCarriedOut result }
    ensures cause { result ≡ Status.WriteFault
        → Rises (F.faults files.old).write (F.faults files.new).write ⊎ Rises (K.faults out.old).count (K.faults out.new).count }
    ensures counts { HasWriteCause ⊥ (F.faults files.old) (F.faults files.new) }
    ensures out_counts { HasSinkCause ⊥ (K.faults out.old) (K.faults out.new) }
{
    let Plan {
        files: made,
        ending,
    } = plan;
    match write_files(files, made.as_slice()) {
        Ok(()) => match say(out, ending) {
            Ok(true) => Status::Done,
            Ok(false) => Status::Stopped,
            Err(Fault::Failed) => Status::WriteFault,
            Err(Fault::Memory) => Status::Memory,
        },
        Err(Fault::Failed) => Status::WriteFault,
        Err(Fault::Memory) => Status::Memory,
    }
}

// Does what a command says, and answers how it ended.
fn obey<F: Files, K: Sink>(alloc: Global, order: Order<'_>, files: &mut F, out: &mut K) -> Status
    requires idle { F.mode files.old ≡ FileMode.Idle }
    requires reads { length order.reads.now ≡ length (texts_of order.command) }
    requires writes { length order.writes.now ≡ written_by order.command }
    ensures mode { F.mode files.new ≡ FileMode.Idle }
    ensures stands { IsTrue F.tells → Ends (Some (order_meant order.entry)) result (IsTrue K.tells)
        (record { holds = (F.told files.old).holds; written = K.written out.old })
        (record { holds = (F.told files.new).holds; written = K.written out.new }) }
    ensures witness { IsTrue F.tells → HasWitness (Some (order_meant order.entry)) result (IsTrue K.tells)
        (record { holds = (F.told files.old).holds; written = K.written out.old })
        (record { holds = (F.told files.new).holds; written = K.written out.new }) }
    ensures words { FitsWords (Some (order_meant order.entry)) result }
    ensures writes { IsTrue K.tells → Writes (Some (order_meant order.entry)) result (K.written out.old) (K.written out.new) }
    ensures read_fault { result ≡ Status.ReadFault → Rises (F.faults files.old).read (F.faults files.new).read
        ⊎ (IsTrue F.tells × IsAbsent (Some (order_meant order.entry)) (F.told files.old).holds) }
    ensures write_fault { result ≡ Status.WriteFault
        → Rises (F.faults files.old).write (F.faults files.new).write ⊎ Rises (K.faults out.old).count (K.faults out.new).count }
    ensures counts { KeepsCounts (F.faults files.old) (F.faults files.new) }
    ensures out_counts { HasSinkCause ⊥ (K.faults out.old) (K.faults out.new) }
{
    has_one_verdict();
    match plan_for(alloc, files, order) {
        Ok(plan) => carry_out(files, out, plan),
        Err(Stop::Refused(line)) => ended(write_out(out, line.as_slice()), Status::Refused),
        Err(Stop::ReadFault) => Status::ReadFault,
        Err(Stop::Memory) => Status::Memory,
    }
}

/// Does what the words of a command line say, the program's name left out, and answers how it ended.
///
/// All files are read and all texts judged before the first file is created; the files are written before `out`.
///
/// `compile` and `go` take the same sources, and write the cells of the source and a dual flow that certifies that no
/// balanced placement has fewer buffers. For all valid inputs of the source and every list of choices, not only those
/// that `go` was given, these cells never have a clash, each result is a prefix of what the source means, and it is all
/// of it whenever no event is possible. So where `go` ends in `Done`, it reports what the source means.
pub fn valflow<F: Files, K: Sink>(
    alloc: Global,
    words: &Vec<String>,
    files: &mut F,
    out: &mut K,
) -> Status
    requires { F.mode files.old ≡ FileMode.Idle }
    ensures mode { F.mode files.new ≡ FileMode.Idle }

    // Which status comes, and what stands then: of the files where they tell, and of the output where the sink tells too.
    ensures stands { IsTrue F.tells → Ends (order_of (map string_bytes words.now.items)) result (IsTrue K.tells)
        (record { holds = (F.told files.old).holds; written = K.written out.old })
        (record { holds = (F.told files.new).holds; written = K.written out.new }) }

    // Where a command was done, stopped or refused, the verdict is at hand.
    ensures witness { IsTrue F.tells → HasWitness (order_of (map string_bytes words.now.items)) result (IsTrue K.tells)
        (record { holds = (F.told files.old).holds; written = K.written out.old })
        (record { holds = (F.told files.new).holds; written = K.written out.new }) }

    // Words that are no command touch no file.
    ensures words { FitsWords (order_of (map string_bytes words.now.items)) result }
    ensures untouched { order_of (map string_bytes words.now.items) ≡ None → F.faults files.new ≡ F.faults files.old }
    ensures writes { IsTrue K.tells → Writes (order_of (map string_bytes words.now.items)) result (K.written out.old) (K.written out.new) }

    // Why a fault comes.
    ensures read_fault { result ≡ Status.ReadFault → Rises (F.faults files.old).read (F.faults files.new).read
        ⊎ (IsTrue F.tells × IsAbsent (order_of (map string_bytes words.now.items)) (F.told files.old).holds) }
    ensures write_fault { result ≡ Status.WriteFault
        → Rises (F.faults files.old).write (F.faults files.new).write ⊎ Rises (K.faults out.old).count (K.faults out.new).count }

    // Where no fault is counted, the answer is what the verdict says, unless memory runs out.
    ensures complete { IsTrue F.tells → NoFaults (F.faults files.old) (F.faults files.new) (K.faults out.old) (K.faults out.new)
        → Completes (order_of (map string_bytes words.now.items)) (F.told files.old).holds result }

    // Where it is sure that there are no faults, none is counted.
    ensures sure { IsTrue (F.faults files.old).sure → IsTrue (K.faults out.old).sure
        → NoFaults (F.faults files.old) (F.faults files.new) (K.faults out.old) (K.faults out.new) }
    ensures counts { KeepsCounts (F.faults files.old) (F.faults files.new) }
    ensures out_counts { HasSinkCause ⊥ (K.faults out.old) (K.faults out.new) }
{
    has_one_verdict();
    match order_of(words.as_slice()) {
        Some(order) => obey(alloc, order, files, out),
        None => ended(write_out(out, USAGE), Status::Usage),
    }
}
