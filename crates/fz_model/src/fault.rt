//! The tests that refuse a model at a word.

/// Why a word that the grammar allows is refused. Of several tests that refuse one word, the first of these counts.
#[derive(Clone, Copy, Debug, PartialEq, Eq)]
pub enum Fault {
    /// What the profile leaves out.
    Unsupported,
    /// An integer variable without bounds and without a definition.
    Unbounded,
    /// A name that is used and not declared.
    Unknown,
    /// A name that is declared a second time.
    Declared,
    /// A value, a name or an array of another kind or size than is wanted there.
    Kind,
    /// A number or a count beyond its limit.
    Limit,
}
