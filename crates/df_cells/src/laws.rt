//! What holds of the table of kinds.
ghost use Rattle.df_cells.specs.Families.{FamiliesTellKinds};

/// Each operator, comparison and test has its own kind of cell, and no other kind is of its family.
pub fn families_tell_kinds()
    ensures { FamiliesTellKinds }
{}
