//! What follows from the definitions alone: each call does nothing, and its contract is a law.
ghost use Rattle.df_iotext.specs.Laws.{InputsHaveOneReading, InputsHaveReadings};
ghost use Rattle.df_iotext.specs.Laws.{SchedulesHaveOneReading, SchedulesHaveReadings, PrintedSchedulesAreRead};

/// A text has one reading at most as inputs of different names.
pub fn inputs_have_one_reading()
    ensures { InputsHaveOneReading }
{}

/// There is no text without a reading as inputs.
pub fn inputs_have_readings()
    ensures { InputsHaveReadings }
{}

/// A text has one reading at most as a schedule.
pub fn schedules_have_one_reading()
    ensures { SchedulesHaveOneReading }
{}

/// Each text has a reading as a schedule.
pub fn schedules_have_readings()
    ensures { SchedulesHaveReadings }
{}

/// A schedule within the limits that is printed is read back as it was.
pub fn printed_schedules_are_read()
    ensures { PrintedSchedulesAreRead }
{}
