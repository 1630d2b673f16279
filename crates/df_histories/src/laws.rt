//! What holds of the histories of every run of well-formed cells, for all inputs and all choices.
ghost use Rattle.df_histories.specs.Laws.{NeverClashes, IsDeterminate, CountsEvents, FollowsEquations, AccountsForValues, FollowsHistories, ResultsFollowHistories, FollowsLabels, WantedIsTaken, ResultsHaveOutputs, ResultsAreReceived};

/// No operand ever comes to a place that is not empty.
pub fn never_clashes()
    ensures { NeverClashes }
{}

/// The results do not depend on the choices, as far as they have come.
pub fn is_determinate()
    ensures { IsDeterminate }
{}

/// A state tells how many events led to it from the start, whatever the choices were.
pub fn counts_events()
    ensures { CountsEvents }
{}

/// A run agrees with any histories that obey the equations of the arcs.
pub fn follows_equations()
    ensures { FollowsEquations }
{}

/// The values given on an arc are those taken, and then what is on the way.
pub fn accounts_for_values()
    ensures { AccountsForValues }
{}

/// What each cell takes in a run is a prefix of its history, in all histories that meet the cells and inputs.
pub fn follows_histories()
    ensures { FollowsHistories }
{}

/// Each result is a prefix of what its output takes in them.
pub fn results_follow_histories()
    ensures { ResultsFollowHistories }
{}

/// A run agrees with all labels that meet the cells and inputs: firings, values on each arc, and results.
pub fn follows_labels()
    ensures { FollowsLabels }
{}

/// What a cell now wants, the next firing of its label takes.
pub fn wanted_is_taken()
    ensures { WantedIsTaken }
{}

/// Each result is that of an output.
pub fn results_have_outputs()
    ensures { ResultsHaveOutputs }
{}

/// Where no packet is in flight, a result is what its output took so far.
pub fn results_are_received()
    ensures { ResultsAreReceived }
{}
