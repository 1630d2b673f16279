//! Laws of the definitions.
ghost use Rattle.df_meant.specs.Blocks.{BlocksAreMeant};
ghost use Rattle.df_meant.specs.Builds.{TermsAreMeant};
ghost use Rattle.df_meant.specs.SameGraph.{SitesMeetCells};
ghost use Rattle.df_meant.specs.Programs.{SkeletonsTell, ValidInputsHaveLengths};

use df_labels::patterns::patterns_spell;

/// Every term is built to what it means.
pub fn terms_are_meant()
    ensures { TermsAreMeant }
{
    patterns_spell();
}

/// Labels beside the graph of cells are labels that meet the cells.
pub fn sites_meet_cells()
    ensures { SitesMeetCells }
{}

/// Blocks, one after the other, are built to what they mean.
pub fn blocks_are_meant()
    ensures { BlocksAreMeant }
{
    patterns_spell();
}

/// Labels tell the meaning of every flat program, whatever cells have its skeleton.
pub fn skeletons_tell()
    ensures { SkeletonsTell }
{
    patterns_spell();
}

/// Valid inputs of parameters have their lengths.
pub fn valid_inputs_have_lengths()
    ensures { ValidInputsHaveLengths }
{}
