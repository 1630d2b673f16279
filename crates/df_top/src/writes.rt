//! The files of a plan, made in order.
ghost use Rattle.std.specs.Prelude.{◌≡◌, map, IsTrue, IsErrOf, OnOk, OnErr};
ghost use Rattle.df_io.specs.Faults.{HasWriteCause};
ghost use Rattle.df_io.specs.declared.files.FileMode.{FileMode};
ghost use Rattle.df_commands.specs.Effects.{over, PartOf};
ghost use Rattle.df_commands.specs.Plans.{file_of};

use df_commands::plan::NewFile;
use df_io::{Fault, FileMode, Files, write_file};

/// Makes each file with its bytes. A refusal leaves the files before it whole, and a prefix of the one at which it came.
pub fn write_files<F: Files>(files: &mut F, new: &[NewFile<'_>]) -> Result<(), Fault>
    requires { F.mode files.old ≡ FileMode.Idle }
    ensures mode { F.mode files.new ≡ FileMode.Idle }
    ensures ok { IsTrue F.tells → OnOk result ((F.told files.new).holds ≡ over (map file_of new.now) (F.told files.old).holds) }
    ensures err { IsTrue F.tells → OnErr result (PartOf (map file_of new.now) (F.told files.old).holds (F.told files.new).holds) }
    ensures cause { HasWriteCause (IsErrOf result Fault.Failed) (F.faults files.old) (F.faults files.new) }
{
    for file in new {
        write_file(files, file.name, file.bytes.as_slice())?;
    }
    Ok(())
}
