//! Sizes as they are counted.
ghost use Rattle.std.specs.Prelude.{◌≡◌};
ghost use Rattle.df_inline.specs.declared.size.Size.{Size as OneSize};
ghost use Rattle.df_inline.specs.Sizes.{nothing, bracketed, both, one_more, inside};
ghost use Rattle.df_inline.specs.Counts.{saturated};

/// How many nodes, and how many brackets at most one inside another. Each number stands still at 4,294,967,295.
#[derive(Clone, Copy, Debug)]
pub struct Size {
    /// The number of nodes.
    pub nodes: u32,
    /// The number of brackets.
    pub brackets: u32,
}

impl Size {
    /// No node and no bracket.
    pub fn nothing() -> Size
        ensures { result ≡ saturated nothing }
    {
        Size {
            nodes: 0,
            brackets: 0,
        }
    }

    /// A node without parts.
    pub fn node() -> Size
        ensures { result ≡ saturated (one_more nothing) }
    {
        Size {
            nodes: 1,
            brackets: 0,
        }
    }

    /// One bracket around no node.
    pub fn bracket() -> Size
        ensures { result ≡ saturated (bracketed 1) }
    {
        Size {
            nodes: 0,
            brackets: 1,
        }
    }

    /// One node more.
    pub fn one_more(self) -> Size
        ensures { (s : OneSize) → self ≡ saturated s → result ≡ saturated (one_more s) }
    {
        Size {
            nodes: self.nodes.saturating_add(1),
            brackets: self.brackets,
        }
    }

    /// The same inside one bracket.
    pub fn inside(self) -> Size
        ensures { (s : OneSize) → self ≡ saturated s → result ≡ saturated (inside s) }
    {
        Size {
            nodes: self.nodes,
            brackets: self.brackets.saturating_add(1),
        }
    }

    /// One beside the other.
    pub fn and(self, other: Size) -> Size
        ensures { (s t : OneSize) → self ≡ saturated s → other ≡ saturated t → result ≡ saturated (both s t) }
    {
        Size {
            nodes: self.nodes.saturating_add(other.nodes),
            brackets: self.brackets.max(other.brackets),
        }
    }
}
