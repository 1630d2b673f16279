//! The text of a schedule.
ghost use Rattle.std.specs.Prelude.{◌≡◌, ◌≢◌, ◌≤◌, ℕ, List, [], ◌∷◌, IfOk};
ghost use Rattle.df_iotext.specs.Schedules.{schedule_words, IsCount, ReadsSchedule};
ghost use Rattle.df_iotext.specs.Readers.{IsBadDrain};
ghost use Rattle.df_iotext.specs.declared.schedules.ScheduleAnswer.TheVariants.{Memory as NoMemory};

use crate::numbers::read_number;
use crate::words::{Gaps, first_word};
use df_cells::schedules::{Choices, Schedule};
use df_values::memory::Memory;
use std::alloc::Global;

const GREATEST_CHOICE: u32 = 4_294_967_295;

const MOST_CHOICES: usize = 1_000_000;

const LONGEST_DRAIN: u32 = 1_000_000_000;

/// Why no schedule was read.
#[derive(Clone, Copy, Debug, PartialEq, Eq)]
pub enum ScheduleAnswer {
    /// The number, from 1, of the first word such that no schedule begins with the words up to
    /// it, or of a `drain` that ends the text.
    BadSchedule(u32),
    /// Memory was refused.
    Memory,
}

impl From<Memory> for ScheduleAnswer {
    ghost from_gives = { λ _ answer. answer ≡ NoMemory };

    fn from(_refused: Memory) -> ScheduleAnswer {
        ScheduleAnswer::Memory
    }
}

/// The schedule of a text, whose words are parted by spaces, tabs and line ends: at most
/// 1,000,000 choices below 2^32, and then `drain` and a count of at most 1,000,000,000 if there
/// is a drain. All numbers are in decimal, and zeros may lead them.
pub fn read_schedule(alloc: Global, text: &[u8]) -> Result<Schedule, ScheduleAnswer>
    ensures found { IfOk result (λ schedule. ReadsSchedule text.now (Ok schedule)) }
    ensures refused { (k : ℕ) → result ≡ Err (ScheduleAnswer.BadSchedule k)
        → ReadsSchedule text.now (Err k) }
{
    let mut choices = Choices::new(alloc);
    let mut rest = text;
    while let Some((word, behind)) = first_word(rest, Gaps::BlanksAndLineEnds) {
        let number = choices.len() as u32 + 1;
        if word == b"drain".as_slice() {
            let drain = read_drain(behind, number)?;
            return Ok(Schedule { choices, drain });
        }
        if choices.len() == MOST_CHOICES {
            return Err(ScheduleAnswer::BadSchedule(number));
        }
        let Some(choice) = read_number(word, GREATEST_CHOICE) else {
            return Err(ScheduleAnswer::BadSchedule(number));
        };
        choices.push(choice)?;
        rest = behind;
    }
    Ok(Schedule { choices, drain: 0 })
}

// The count behind the word `drain`, which has this number. Nothing may follow the count.
fn read_drain(text: &[u8], number: u32) -> Result<u32, ScheduleAnswer>
    requires { number ≤ 1_000_001 }
    ensures count { IfOk result (λ count. (word : List ℕ)
        × ((schedule_words text.now ≡ word ∷ []) × IsCount word count)) }
    ensures refused { (k : ℕ) → result ≡ Err (ScheduleAnswer.BadSchedule k)
        → IsBadDrain (schedule_words text.now) number k }
    ensures no_memory { result ≢ Err ScheduleAnswer.Memory }
{
    let Some((word, behind)) = first_word(text, Gaps::BlanksAndLineEnds) else {
        return Err(ScheduleAnswer::BadSchedule(number));
    };
    let Some(count) = read_number(word, LONGEST_DRAIN) else {
        return Err(ScheduleAnswer::BadSchedule(number + 1));
    };
    match first_word(behind, Gaps::BlanksAndLineEnds) {
        Some(_) => Err(ScheduleAnswer::BadSchedule(number + 2)),
        None => Ok(count),
    }
}
