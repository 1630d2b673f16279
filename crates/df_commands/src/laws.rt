//! What follows from the definitions of the verdict alone: each call does nothing, and its contract is a law.
ghost use Rattle.df_commands.specs.Laws.{AcceptedSourcesBindNewNames, AcceptedSourcesKeepTheirDemands, CellFilesHaveOneReading, CellFilesHaveReadings, CellsOfSourcesAreGood, CellsOfSourcesAreInTime, CompilationsHaveOneReading, CompilationsHaveReadings, DrainedRunsTellTheMeaning, DualFilesHaveOneReading, DualFilesHaveReadings, HasOneVerdict, HasSomeVerdict, ProgramsHaveOneReading, ProgramsHaveReadings, TraceFilesHaveOneReading, TraceFilesHaveReadings};

use df_accepted::laws::accepted_sources_are_piped;
use df_celltext::laws::{has_one_first_wrong_line, is_read_or_wrong, text_tells_the_cells};
use df_dual_check::laws::{
    certified_dont_fail, fails_once as flow_fails_once, has_one_wrong_line, others_fail,
    others_have_wrong_lines, tells_one_flow,
};
use df_ends::laws::{good_for_all_is_good, realizing_for_all_is_good};
use df_flattened::laws::lowering_keeps_the_meaning;
use df_iotext::laws::{
    inputs_have_one_reading, inputs_have_readings, schedules_have_one_reading,
    schedules_have_readings,
};
use df_lockstep::laws::{drains_in_time, keeps_full_rate, whole_in_time};
use df_syntax::laws::{
    text_has_one_first_bad_place, text_has_one_split, text_has_tokens_or_a_bad_place,
    text_with_tokens_has_no_bad_place, tokens_have_one_answer, tokens_have_some_answer,
    trees_are_well_built,
};
use df_trace::laws::{traces_have_one_answer, traces_have_some_answer};
use df_types::laws::accepted_names_are_new;
use df_wellformed::laws::{fails_once, refuses_all_bad, refuses_only_bad};

/// The text of a cell file is that of well-formed cells, or is refused by one line, and not both.
pub fn cell_files_have_one_reading()
    ensures { CellFilesHaveOneReading }
{
    text_tells_the_cells();
    has_one_first_wrong_line();
    fails_once();
    refuses_only_bad();
}

/// The text of a cell file is that of well-formed cells, or is refused.
pub fn cell_files_have_readings()
    ensures { CellFilesHaveReadings }
{
    is_read_or_wrong();
    refuses_all_bad();
}

/// The text of a dual file is that of a flow which certifies the cells, or is refused by one line, and not both.
pub fn dual_files_have_one_reading()
    ensures { DualFilesHaveOneReading }
{
    tells_one_flow();
    has_one_wrong_line();
    flow_fails_once();
    certified_dont_fail();
}

/// The text of a dual file is that of a flow which certifies the cells, or is refused.
pub fn dual_files_have_readings()
    ensures { DualFilesHaveReadings }
{
    others_have_wrong_lines();
    others_fail();
}

/// The text of a trace has the lines of events that are possible at their turns, or is refused by one line, and not both.
pub fn trace_files_have_one_reading()
    ensures { TraceFilesHaveOneReading }
{
    traces_have_one_answer();
}

/// The text of a trace has the lines of events that are possible at their turns, or is refused.
pub fn trace_files_have_readings()
    ensures { TraceFilesHaveReadings }
{
    traces_have_some_answer();
}

/// The text of a source is that of one accepted tree, or is refused by one line, and not both.
pub fn programs_have_one_reading()
    ensures { ProgramsHaveOneReading }
{
    text_has_one_split();
    text_has_one_first_bad_place();
    text_with_tokens_has_no_bad_place();
    tokens_have_one_answer();
}

/// The text of a source is that of an accepted tree, or is refused.
pub fn programs_have_readings()
    ensures { ProgramsHaveReadings }
{
    text_has_tokens_or_a_bad_place();
    tokens_have_some_answer();
}

/// The text of a source is that of one tree that can be compiled, or is refused by one line, and not both.
pub fn compilations_have_one_reading()
    ensures { CompilationsHaveOneReading }
{
    programs_have_one_reading();
}

/// The text of a source is that of a tree that can be compiled, or is refused.
pub fn compilations_have_readings()
    ensures { CompilationsHaveReadings }
{
    programs_have_readings();
}

/// The program in blocks of an accepted source keeps what is left of the demands on it.
pub fn accepted_sources_keep_their_demands()
    ensures { AcceptedSourcesKeepTheirDemands }
{
    trees_are_well_built();
    accepted_sources_are_piped();
}

/// The names that an accepted source binds in its functions are new where it binds them.
pub fn accepted_sources_bind_new_names()
    ensures { AcceptedSourcesBindNewNames }
{
    trees_are_well_built();
    accepted_names_are_new();
}

/// Cells with the inputs of a source that realize what its flat program means are good for the source: for all valid
/// inputs and every list of choices no operand comes to an occupied place, each result is a prefix of what the source
/// means, and it is all of it whenever no event is possible.
pub fn cells_of_sources_are_good()
    ensures { CellsOfSourcesAreGood }
{
    realizing_for_all_is_good();
    good_for_all_is_good();
    lowering_keeps_the_meaning();
}

/// Where no cell is on a loop, such cells keep the full rate in runs in lock step: two phases an element.
pub fn cells_of_sources_are_in_time()
    ensures { CellsOfSourcesAreInTime }
{
    keeps_full_rate();
    drains_in_time();
    whole_in_time();
    lowering_keeps_the_meaning();
}

/// Where a run of such cells is drained, its report has the results that the source means.
pub fn drained_runs_tell_the_meaning()
    ensures { DrainedRunsTellTheMeaning }
{}

/// There is at most one verdict on a command and what the files hold.
pub fn has_one_verdict()
    ensures { HasOneVerdict }
{
    inputs_have_one_reading();
    schedules_have_one_reading();
    cell_files_have_one_reading();
    trace_files_have_one_reading();
    dual_files_have_one_reading();
    programs_have_one_reading();
    compilations_have_one_reading();
    accepted_sources_bind_new_names();
}

/// There is at least one: it can't be that nothing is the verdict.
pub fn has_some_verdict()
    ensures { HasSomeVerdict }
{
    inputs_have_readings();
    schedules_have_readings();
    cell_files_have_readings();
    trace_files_have_readings();
    dual_files_have_readings();
    programs_have_readings();
    compilations_have_readings();
}
