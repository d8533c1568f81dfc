//! The constraints of the profile: their names, and what their arguments are.

ghost use Rattle.std.specs.Prelude.{◌≡◌};
ghost use Rattle.fz_model.specs.Table as spec;

/// A constraint that has a meaning.
#[derive(Clone, Copy, Debug, PartialEq, Eq)]
pub enum ConstraintKind {
    IntLinLe,
    IntLinEq,
    IntLinNe,
    IntLinLeReif,
    IntLinEqReif,
    IntLinNeReif,
    IntLe,
    IntLt,
    IntEq,
    IntNe,
    IntLeReif,
    IntLtReif,
    IntEqReif,
    IntNeReif,
    IntPlus,
    IntTimes,
    IntMax,
    IntMin,
    IntAbs,
    Bool2Int,
    BoolEq,
    BoolNot,
    BoolXor,
    BoolLe,
    BoolLt,
    BoolEqReif,
    BoolLeReif,
    BoolLtReif,
    BoolAnd,
    BoolOr,
    ArrayBoolAnd,
    ArrayBoolOr,
    BoolClause,
    BoolClauseReif,
    SetIn,
    SetInReif,
    ArrayIntElement,
    ArrayVarIntElement,
    ArrayBoolElement,
    ArrayVarBoolElement,
    AllDifferentInt,
    FznAllDifferentInt,
    Cumulative,
    FznCumulative,
}

/// What an argument of a constraint has to be.
#[derive(Clone, Copy, Debug, PartialEq, Eq)]
pub enum ArgKind {
    /// An integer: a literal, a parameter or a variable.
    Int,
    /// A Boolean: a literal, a parameter or a variable.
    Bool,
    /// An array of integers.
    Ints,
    /// An array of Booleans.
    Bools,
    /// An array of integer constants.
    Consts,
    /// An array of Boolean constants.
    BoolConsts,
    /// An array of integer constants within 10^9 of 0.
    Coefficients,
    /// A set.
    Set,
    /// An integer constant.
    Const,
    /// An array of integer constants from 0 to 10^9; a variable there is not supported.
    Amounts,
    /// An integer constant from 0 to 10^9; a variable there is not supported.
    Amount,
}

impl ConstraintKind {
    /// Every constraint, in the order of the table.
    pub const ALL: [ConstraintKind; 44] = [
        ConstraintKind::IntLinLe,
        ConstraintKind::IntLinEq,
        ConstraintKind::IntLinNe,
        ConstraintKind::IntLinLeReif,
        ConstraintKind::IntLinEqReif,
        ConstraintKind::IntLinNeReif,
        ConstraintKind::IntLe,
        ConstraintKind::IntLt,
        ConstraintKind::IntEq,
        ConstraintKind::IntNe,
        ConstraintKind::IntLeReif,
        ConstraintKind::IntLtReif,
        ConstraintKind::IntEqReif,
        ConstraintKind::IntNeReif,
        ConstraintKind::IntPlus,
        ConstraintKind::IntTimes,
        ConstraintKind::IntMax,
        ConstraintKind::IntMin,
        ConstraintKind::IntAbs,
        ConstraintKind::Bool2Int,
        ConstraintKind::BoolEq,
        ConstraintKind::BoolNot,
        ConstraintKind::BoolXor,
        ConstraintKind::BoolLe,
        ConstraintKind::BoolLt,
        ConstraintKind::BoolEqReif,
        ConstraintKind::BoolLeReif,
        ConstraintKind::BoolLtReif,
        ConstraintKind::BoolAnd,
        ConstraintKind::BoolOr,
        ConstraintKind::ArrayBoolAnd,
        ConstraintKind::ArrayBoolOr,
        ConstraintKind::BoolClause,
        ConstraintKind::BoolClauseReif,
        ConstraintKind::SetIn,
        ConstraintKind::SetInReif,
        ConstraintKind::ArrayIntElement,
        ConstraintKind::ArrayVarIntElement,
        ConstraintKind::ArrayBoolElement,
        ConstraintKind::ArrayVarBoolElement,
        ConstraintKind::AllDifferentInt,
        ConstraintKind::FznAllDifferentInt,
        ConstraintKind::Cumulative,
        ConstraintKind::FznCumulative,
    ];

    /// The bytes of the constraint's name.
    pub fn name(self) -> &'static [u8]
        ensures { result.now ≡ spec.constraint_name self }
    {
        match self {
            ConstraintKind::IntLinLe => b"int_lin_le",
            ConstraintKind::IntLinEq => b"int_lin_eq",
            ConstraintKind::IntLinNe => b"int_lin_ne",
            ConstraintKind::IntLinLeReif => b"int_lin_le_reif",
            ConstraintKind::IntLinEqReif => b"int_lin_eq_reif",
            ConstraintKind::IntLinNeReif => b"int_lin_ne_reif",
            ConstraintKind::IntLe => b"int_le",
            ConstraintKind::IntLt => b"int_lt",
            ConstraintKind::IntEq => b"int_eq",
            ConstraintKind::IntNe => b"int_ne",
            ConstraintKind::IntLeReif => b"int_le_reif",
            ConstraintKind::IntLtReif => b"int_lt_reif",
            ConstraintKind::IntEqReif => b"int_eq_reif",
            ConstraintKind::IntNeReif => b"int_ne_reif",
            ConstraintKind::IntPlus => b"int_plus",
            ConstraintKind::IntTimes => b"int_times",
            ConstraintKind::IntMax => b"int_max",
            ConstraintKind::IntMin => b"int_min",
            ConstraintKind::IntAbs => b"int_abs",
            ConstraintKind::Bool2Int => b"bool2int",
            ConstraintKind::BoolEq => b"bool_eq",
            ConstraintKind::BoolNot => b"bool_not",
            ConstraintKind::BoolXor => b"bool_xor",
            ConstraintKind::BoolLe => b"bool_le",
            ConstraintKind::BoolLt => b"bool_lt",
            ConstraintKind::BoolEqReif => b"bool_eq_reif",
            ConstraintKind::BoolLeReif => b"bool_le_reif",
            ConstraintKind::BoolLtReif => b"bool_lt_reif",
            ConstraintKind::BoolAnd => b"bool_and",
            ConstraintKind::BoolOr => b"bool_or",
            ConstraintKind::ArrayBoolAnd => b"array_bool_and",
            ConstraintKind::ArrayBoolOr => b"array_bool_or",
            ConstraintKind::BoolClause => b"bool_clause",
            ConstraintKind::BoolClauseReif => b"bool_clause_reif",
            ConstraintKind::SetIn => b"set_in",
            ConstraintKind::SetInReif => b"set_in_reif",
            ConstraintKind::ArrayIntElement => b"array_int_element",
            ConstraintKind::ArrayVarIntElement => b"array_var_int_element",
            ConstraintKind::ArrayBoolElement => b"array_bool_element",
            ConstraintKind::ArrayVarBoolElement => b"array_var_bool_element",
            ConstraintKind::AllDifferentInt => b"all_different_int",
            ConstraintKind::FznAllDifferentInt => b"fzn_all_different_int",
            ConstraintKind::Cumulative => b"cumulative",
            ConstraintKind::FznCumulative => b"fzn_cumulative",
        }
    }

    /// The constraint of this name, if there is one.
    #[tactic(auto, unfolding(crate::specs::Table::constraint_of))]
    pub fn named(name: &[u8]) -> Option<ConstraintKind>
        ensures { result ≡ spec.constraint_of name.now }
    {
        ConstraintKind::ALL
            .iter()
            .copied()
            .find(|kind| kind.name() == name)
    }

    /// What its arguments have to be, in order. The last of `BoolXor` may be left out.
    pub fn args(self) -> &'static [ArgKind]
        ensures { result.now ≡ spec.args_of self }
    {
        match self {
            ConstraintKind::IntLinLe | ConstraintKind::IntLinEq | ConstraintKind::IntLinNe => &[
                ArgKind::Coefficients,
                ArgKind::Ints,
                ArgKind::Const,
            ],
            ConstraintKind::IntLinLeReif
            | ConstraintKind::IntLinEqReif
            | ConstraintKind::IntLinNeReif => &[
                ArgKind::Coefficients,
                ArgKind::Ints,
                ArgKind::Const,
                ArgKind::Bool,
            ],
            ConstraintKind::IntLe
            | ConstraintKind::IntLt
            | ConstraintKind::IntEq
            | ConstraintKind::IntNe => &[ArgKind::Int, ArgKind::Int],
            ConstraintKind::IntLeReif
            | ConstraintKind::IntLtReif
            | ConstraintKind::IntEqReif
            | ConstraintKind::IntNeReif => &[ArgKind::Int, ArgKind::Int, ArgKind::Bool],
            ConstraintKind::IntPlus
            | ConstraintKind::IntTimes
            | ConstraintKind::IntMax
            | ConstraintKind::IntMin => &[ArgKind::Int, ArgKind::Int, ArgKind::Int],
            ConstraintKind::IntAbs => &[ArgKind::Int, ArgKind::Int],
            ConstraintKind::Bool2Int => &[ArgKind::Bool, ArgKind::Int],
            ConstraintKind::BoolEq
            | ConstraintKind::BoolNot
            | ConstraintKind::BoolLe
            | ConstraintKind::BoolLt => &[ArgKind::Bool, ArgKind::Bool],
            ConstraintKind::BoolXor
            | ConstraintKind::BoolEqReif
            | ConstraintKind::BoolLeReif
            | ConstraintKind::BoolLtReif
            | ConstraintKind::BoolAnd
            | ConstraintKind::BoolOr => &[ArgKind::Bool, ArgKind::Bool, ArgKind::Bool],
            ConstraintKind::ArrayBoolAnd | ConstraintKind::ArrayBoolOr => &[
                ArgKind::Bools,
                ArgKind::Bool,
            ],
            ConstraintKind::BoolClause => &[ArgKind::Bools, ArgKind::Bools],
            ConstraintKind::BoolClauseReif => &[ArgKind::Bools, ArgKind::Bools, ArgKind::Bool],
            ConstraintKind::SetIn => &[ArgKind::Int, ArgKind::Set],
            ConstraintKind::SetInReif => &[ArgKind::Int, ArgKind::Set, ArgKind::Bool],
            ConstraintKind::ArrayIntElement => &[ArgKind::Int, ArgKind::Consts, ArgKind::Int],
            ConstraintKind::ArrayVarIntElement => &[ArgKind::Int, ArgKind::Ints, ArgKind::Int],
            ConstraintKind::ArrayBoolElement => &[ArgKind::Int, ArgKind::BoolConsts, ArgKind::Bool],
            ConstraintKind::ArrayVarBoolElement => &[ArgKind::Int, ArgKind::Bools, ArgKind::Bool],
            ConstraintKind::AllDifferentInt | ConstraintKind::FznAllDifferentInt => &[
                ArgKind::Ints,
            ],
            ConstraintKind::Cumulative | ConstraintKind::FznCumulative => &[
                ArgKind::Ints,
                ArgKind::Amounts,
                ArgKind::Amounts,
                ArgKind::Amount,
            ],
        }
    }

    /// How many arguments it has at least.
    pub fn least_args(self) -> usize
        ensures { result ≡ spec.least_args self }
    {
        match self {
            ConstraintKind::BoolXor => 2,
            _ => self.args().len(),
        }
    }
}
