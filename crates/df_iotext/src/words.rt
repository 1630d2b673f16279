//! The words of a text, one after another from its front.
ghost use Rattle.std.specs.Prelude.{◌≡◌, ◌<◌, ◌≤◌, ◌+◌, [], ◌∷◌, not, length, drop, IfSome, IfNone};
ghost use Rattle.std.specs.List.{prefix_len};
ghost use Rattle.df_iotext.specs.Words.{is_gap, words};

/// The bytes that part words.
#[derive(Clone, Copy, PartialEq, Eq, Debug)]
pub enum Gaps {
    /// Space and tab.
    Blanks,
    /// Space, tab, carriage return and line feed.
    BlanksAndLineEnds,
}

impl Gaps {
    /// Whether this byte parts words.
    pub fn contains(self, byte: u8) -> bool
        ensures { result ≡ is_gap self byte }
    {
        match self {
            Gaps::Blanks => byte == b' ' || byte == b'\t',
            Gaps::BlanksAndLineEnds => {
                (byte == b' ' || byte == b'\t') || (byte == b'\r' || byte == b'\n')
            }
        }
    }
}

/// What is left of the text behind the gaps at its front.
pub fn behind_gaps(text: &[u8], gaps: Gaps) -> &[u8]
    ensures { result.now ≡ drop (prefix_len (is_gap gaps) text.now) text.now }
{
    &text[gaps_len(text, gaps)..]
}

/// The first word of the text, and what stands behind it. None where there is no word.
pub fn first_word(text: &[u8], gaps: Gaps) -> Option<(&[u8], &[u8])>
    ensures word { IfSome result (λ found.
        words gaps text.now ≡ found.0.now ∷ words gaps found.1.now) }
    ensures shorter { IfSome result (λ found. length found.1.now < length text.now) }
    ensures none { IfNone result (words gaps text.now ≡ []) }
{
    let found = behind_gaps(text, gaps);
    let length = word_len(found, gaps);
    if length == 0 {
        return None;
    }
    Some((&found[..length], &found[length..]))
}

// How many gaps the text begins with.
fn gaps_len(text: &[u8], gaps: Gaps) -> usize
    ensures value { result ≡ prefix_len (is_gap gaps) text.now }
    ensures within { result ≤ length text.now }
{
    text.iter().take_while(|byte| gaps.contains(**byte)).count()
}

// How many bytes of a word it begins with.
fn word_len(text: &[u8], gaps: Gaps) -> usize
    ensures value { result ≡ prefix_len (λ byte. not (is_gap gaps byte)) text.now }
    ensures within { result ≤ length text.now }
{
    text.iter()
        .take_while(|byte| !gaps.contains(**byte))
        .count()
}
