//! The texts of the files that a command reads.
ghost use Rattle.std.specs.Prelude.{◌≡◌, ◌≤◌, ◌++◌, ◌∷◌, [], length, map, All, IfOk, OnOk, IsTrue, string_bytes};
ghost use Rattle.df_io.specs.Faults.{HasReadCause};
ghost use Rattle.df_io.specs.declared.files.FileMode.{FileMode};
ghost use Rattle.df_commands.specs.Commands.{limit_of};
ghost use Rattle.df_commands.specs.Verdicts.{text_at, texts_at};
ghost use Rattle.df_commands.specs.Judged.{GivesRead, HasReadingCause};

use crate::command::Text;
use crate::refusals::refused;
use crate::stop::Stop;
use df_io::{FileMode, Files, ReadAnswer, read_all};
use df_values::bytes::Bytes;
use df_values::memory::Memory;
use std::alloc::Global;

// The text of a file, if it is there and within its limit.
#[tactic(auto, unfolding(crate::specs::Verdicts::text_at))]
fn text_of<F: Files>(alloc: Global, files: &mut F, name: &String, kind: Text) -> Result<Bytes, Stop>
    requires { F.mode files.old ≡ FileMode.Idle }
    ensures mode { F.mode files.new ≡ FileMode.Idle }
    ensures holds { IsTrue F.tells → (F.told files.new).holds ≡ (F.told files.old).holds }
    ensures gives { IsTrue F.tells → GivesRead (λ text. text) result (text_at (F.told files.old).holds (string_bytes name.now) kind) }
    ensures short { IfOk result (λ text. length text ≤ limit_of kind) }
    ensures fault { HasReadingCause F.tells (F.faults files.old) (F.faults files.new) result
        (text_at (F.told files.old).holds (string_bytes name.now) kind) }
    ensures counts { HasReadCause ⊥ (F.faults files.old) (F.faults files.new) }
{
    match read_all(alloc, files, name, kind.limit()) {
        Ok(text) => Ok(text),
        Err(ReadAnswer::TooLong) => Err(Stop::Refused(refused(alloc, "TooLong ", kind.label())?)),
        Err(ReadAnswer::Absent | ReadAnswer::ReadFault) => Err(Stop::ReadFault),
        Err(ReadAnswer::Memory) => Err(Stop::Memory),
    }
}

// One text more.
fn add(texts: &mut Vec<Bytes>, text: Bytes) -> Result<(), Memory>
    ensures { OnOk result (texts.new.items ≡ texts.old.items ++ text ∷ []) }
{
    texts.push(text)?;
    Ok(())
}

/// The texts of the files of these names, in their order. The first that isn't there, is over its limit or can't be read ends it.
pub fn texts_of<F: Files>(
    alloc: Global,
    files: &mut F,
    names: &[String],
    kinds: &[Text],
) -> Result<Vec<Bytes>, Stop>
    requires idle { F.mode files.old ≡ FileMode.Idle }
    requires each { length names.now ≡ length kinds.now }
    ensures mode { F.mode files.new ≡ FileMode.Idle }
    ensures holds { IsTrue F.tells → (F.told files.new).holds ≡ (F.told files.old).holds }
    ensures gives { IsTrue F.tells → GivesRead (λ texts. texts.items) result
        (texts_at (F.told files.old).holds (map string_bytes names.now) kinds.now) }
    ensures count { IfOk result (λ texts. length texts.items ≡ length kinds.now) }
    ensures short { IfOk result (λ texts. All (λ text. length text ≤ 67_108_864) texts.items) }
    ensures fault { HasReadingCause F.tells (F.faults files.old) (F.faults files.new) result
        (texts_at (F.told files.old).holds (map string_bytes names.now) kinds.now) }
    ensures counts { HasReadCause ⊥ (F.faults files.old) (F.faults files.new) }
{
    let mut texts = Vec::new(alloc);
    for k in 0..names.len() {
        let text = text_of(alloc, files, &names[k], kinds[k])?;
        add(&mut texts, text)?;
    }
    Ok(texts)
}
