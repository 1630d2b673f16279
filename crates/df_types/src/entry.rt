//! What a name stands for.
use df_names::NameMap;
use df_syntax::tree::Sort;

/// What a name in scope stands for.
#[derive(Clone, Copy, Debug)]
pub enum Entry {
    /// A constant.
    Constant,
    /// A constant that may not be named yet.
    Later,
    /// A value of this type: a parameter, a definition, an index or a name of a loop.
    Local(Sort),
    /// The function at this place of the source's functions, from 0.
    Function(usize),
}

/// What the names in scope stand for.
pub(crate) type Scope = NameMap<Entry>;
