//! What follows from the definitions alone: each call does nothing, and its contract is a law.
ghost use Rattle.df_build_terms.specs.Counting.{TermsCountTheSame};
ghost use Rattle.df_build_terms.specs.InZone.{TermsStayInZone};
ghost use Rattle.df_build_terms.specs.Made.{TermsAreMade};

use df_build_access::laws::{windows_are_made, windows_count_the_same, windows_stay_in_zone};
use df_build_cond::laws::{gates_are_made, gates_count_the_same, gates_stay_in_zone};
use df_build_loops::laws::{loops_are_made, loops_count_the_same, loops_stay_in_zone};

/// Where less is kept of nodes, a term is built to the same but for nodes.
pub fn terms_count_the_same()
    ensures { TermsCountTheSame }
{
    gates_count_the_same();
    windows_count_the_same();
    loops_count_the_same();
}

/// The cells of a term are made as their kinds ask, where its turns are few and ordinary; none is an IN or an OUT.
pub fn terms_are_made()
    ensures { TermsAreMade }
{
    gates_are_made();
    windows_are_made();
    loops_are_made();
}

/// The cells of a term stay in the zone of their block, but for those that have to lie below; arcs, and all that was
/// met and noted, come from cells that are there.
pub fn terms_stay_in_zone()
    ensures { TermsStayInZone }
{
    gates_stay_in_zone();
    windows_stay_in_zone();
    loops_stay_in_zone();
}
