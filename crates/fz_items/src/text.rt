//! Parts of an item as they stand in the text.

/// An integer, and whether `..` follows it.
#[derive(Clone, Copy, Debug, PartialEq, Eq)]
pub struct Number {
    pub value: i64,
    pub dotted: bool,
}

/// A literal or a name.
#[derive(Clone, Copy, Debug)]
pub enum BasicWord<'a> {
    Truth(bool),
    Whole(Number),
    Name(&'a [u8]),
}

/// A set.
#[derive(Debug, Drop)]
pub enum SetWords {
    List(Vec<Number>),
    Range(Number, Number),
}

/// The type of a variable.
#[derive(Debug, Drop)]
pub enum TypeWords {
    Bool,
    Int,
    Set(SetWords),
}

/// An array of constants.
#[derive(Debug, Drop)]
pub struct ConstsText<'a> {
    pub bools: bool,
    pub name: &'a [u8],
    pub elements: Vec<BasicWord<'a>>,
}

/// A variable or an alias.
#[derive(Debug, Drop)]
pub struct VarText<'a> {
    pub name: &'a [u8],
    pub kind: TypeWords,
    pub output: bool,
    pub value: Option<BasicWord<'a>>,
}

/// An array of variables.
#[derive(Debug, Drop)]
pub struct VarsText<'a> {
    pub name: &'a [u8],
    /// The ranges of the first `output_array`, if there is one; None in it where it spells no list of ranges.
    pub output: Option<Option<Vec<(Number, Number)>>>,
    pub elements: Vec<BasicWord<'a>>,
}
