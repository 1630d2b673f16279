//! What labels of members say of every run with fewer events than they are for.
ghost use Rattle.df_members.specs.Laws.{FollowsMembers};
ghost use Rattle.df_members.specs.Countdown.{CountdownMeets};

use df_histories::laws::accounts_for_values;
use df_machine::laws::fires_once_per_event;

/// The firings of each cell so far are the first of its label, and none of them takes or answers a nothing.
pub fn follows_members()
    ensures { FollowsMembers }
{
    accounts_for_values();
    fires_once_per_event();
}

/// There are such labels of a loop, for every number of firings: a countdown from 2, with a value loaded at its entry.
pub fn countdown_meets()
    ensures { CountdownMeets }
{}
