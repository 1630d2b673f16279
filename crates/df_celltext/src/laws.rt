//! What follows from the definitions alone: each call does nothing, and its contract is a law.
ghost use Rattle.std.specs.Prelude.{◌≡◌, ◌⊎◌, ℕ, List};
ghost use Rattle.df_cells.specs.declared.cells.Cell.{Cell};
ghost use Rattle.df_celltext.specs.declared.version.Version.{Version};
ghost use Rattle.df_celltext.specs.Writable.{IsTextIn};
ghost use Rattle.df_celltext.specs.WrongLines.{FirstWrongLineIn};

/// In each version a text is that of one list of cells at most.
pub fn text_tells_the_cells()
    ensures { (version : Version) (text : List ℕ) (a b : List Cell) → IsTextIn version text a → IsTextIn version text b → a ≡ b }
{}

/// In each version a text has one first wrong line at most.
pub fn has_one_first_wrong_line()
    ensures { (version : Version) (text : List ℕ) (m n : ℕ) → FirstWrongLineIn version text m → FirstWrongLineIn version text n → m ≡ n }
{}

/// In each version a text is that of a list of cells, or has a first wrong line.
pub fn is_read_or_wrong()
    ensures { (version : Version) (text : List ℕ) → ((cells : List Cell) × IsTextIn version text cells) ⊎ ((n : ℕ) × FirstWrongLineIn version text n) }
{}
