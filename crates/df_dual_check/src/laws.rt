//! What follows from the definitions alone: each call does nothing, and its contract is a law.
ghost use Rattle.df_dual_check.specs.Laws.{CertifiedDontFail, FailsOnce, HasOneWrongLine, OthersFail, OthersHaveWrongLines, TellsOneFlow};

use df_stages::laws::{ends_have_stages, has_skeletons};

/// One answer at most tells what is wrong with cells and a flow.
pub fn fails_once()
    ensures { FailsOnce }
{
    has_skeletons();
    ends_have_stages();
}

/// Nothing is wrong with what is certified.
pub fn certified_dont_fail()
    ensures { CertifiedDontFail }
{
    has_skeletons();
    ends_have_stages();
}

/// Something is wrong with what isn't: it can't be that nothing is.
pub fn others_fail()
    ensures { OthersFail }
{
    has_skeletons();
    ends_have_stages();
}

/// A text tells one flow at most.
pub fn tells_one_flow()
    ensures { TellsOneFlow }
{}

/// A text has one first wrong line at most.
pub fn has_one_wrong_line()
    ensures { HasOneWrongLine }
{}

/// A text of no flow has a first wrong line: it can't be that it has none.
pub fn others_have_wrong_lines()
    ensures { OthersHaveWrongLines }
{}
