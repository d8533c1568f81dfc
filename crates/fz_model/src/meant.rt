//! What names stand for, and the tests of what stands where a value is wanted.

ghost use Rattle.std.specs.Prelude.{◌≡◌, Some};
ghost use Rattle.fz_model.specs.Constraints.{amount_test, argument_test, bool_consts_test, bools_test, constants_test, element_test, ints_test, pairs_arrays, set_test, wanted_test, wants_array, wants_set};
ghost use Rattle.fz_model.specs.Limits.{amount_limit, beyond_small, no_test};
ghost use Rattle.fz_model.specs.Context.{bool_const_test, bool_test, const_test, goal_test, int_test};
ghost use Rattle.fz_model.specs.ModelText.{bool_constant, int_constant};
ghost use Rattle.fz_model.specs.declared.fault.Fault.TheVariants.{Unsupported, Kind};

use crate::{ArgKind, Fault, Integers, Truths};

/// What a name stands for.
#[derive(Debug, Drop)]
pub enum Meant {
    IntConst(i64),
    BoolConst(bool),
    SetConst,
    IntVar,
    BoolVar,
    /// An array of integers, a parameter or of variables.
    IntArray { parameter: bool, elements: Integers },
    /// An array of Booleans, a parameter or of variables.
    BoolArray { parameter: bool, elements: Truths },
}

/// The greatest bound, coefficient, duration, usage or capacity.
const SMALL: u64 = 1_000_000_000;

/// Whether a bound, a coefficient or what defines a variable is beyond 10^9.
pub fn beyond_small(value: i64) -> Option<Fault>
    ensures { result ≡ beyond_small value }
{
    if value.unsigned_abs() > SMALL {
        Some(Fault::Limit)
    } else {
        None
    }
}

/// Whether a duration, a usage or a capacity is outside 0..10^9.
pub fn amount_limit(value: i64) -> Option<Fault>
    ensures { result ≡ amount_limit value }
{
    if value < 0 || value.unsigned_abs() > SMALL {
        Some(Fault::Limit)
    } else {
        None
    }
}

impl Meant {
    /// The integer, if it is a constant one.
    pub fn integer(&self) -> Option<i64>
        ensures { result ≡ int_constant (Some self.now) }
    {
        match self {
            Meant::IntConst(value) => Some(*value),
            _ => None,
        }
    }

    /// The Boolean, if it is a constant one.
    pub fn truth(&self) -> Option<bool>
        ensures { result ≡ bool_constant (Some self.now) }
    {
        match self {
            Meant::BoolConst(value) => Some(*value),
            _ => None,
        }
    }

    /// Why it is no integer.
    pub fn refuses_int(&self) -> Option<Fault>
        ensures { result ≡ int_test no_test self.now }
    {
        match self {
            Meant::IntConst(_) | Meant::IntVar => None,
            _ => Some(Fault::Kind),
        }
    }

    /// Why it is no integer that may define a variable.
    pub fn refuses_small_int(&self) -> Option<Fault>
        ensures { result ≡ int_test beyond_small self.now }
    {
        match self {
            Meant::IntConst(value) => beyond_small(*value),
            Meant::IntVar => None,
            _ => Some(Fault::Kind),
        }
    }

    /// Why it is no Boolean.
    pub fn refuses_bool(&self) -> Option<Fault>
        ensures { result ≡ bool_test self.now }
    {
        match self {
            Meant::BoolConst(_) | Meant::BoolVar => None,
            _ => Some(Fault::Kind),
        }
    }

    /// Why it is no integer constant.
    pub fn refuses_const(&self) -> Option<Fault>
        ensures { result ≡ const_test no_test self.now }
    {
        match self {
            Meant::IntConst(_) => None,
            _ => Some(Fault::Kind),
        }
    }

    /// Why it is no coefficient.
    pub fn refuses_coefficient(&self) -> Option<Fault>
        ensures { result ≡ const_test beyond_small self.now }
    {
        match self {
            Meant::IntConst(value) => beyond_small(*value),
            _ => Some(Fault::Kind),
        }
    }

    /// Why it is no Boolean constant.
    pub fn refuses_bool_const(&self) -> Option<Fault>
        ensures { result ≡ bool_const_test self.now }
    {
        match self {
            Meant::BoolConst(_) => None,
            _ => Some(Fault::Kind),
        }
    }

    /// Why it is no duration, usage or capacity.
    pub fn refuses_amount(&self) -> Option<Fault>
        ensures { result ≡ amount_test self.now }
    {
        match self {
            Meant::IntConst(value) => amount_limit(*value),
            Meant::IntVar => Some(Fault::Unsupported),
            _ => Some(Fault::Kind),
        }
    }

    /// Why it is no goal.
    pub fn refuses_goal(&self) -> Option<Fault>
        ensures { result ≡ goal_test self.now }
    {
        match self {
            Meant::IntVar => None,
            Meant::IntConst(_) | Meant::BoolConst(_) | Meant::SetConst => Some(Fault::Unsupported),
            Meant::IntArray { parameter, .. } | Meant::BoolArray { parameter, .. } => {
                if *parameter {
                    Some(Fault::Unsupported)
                } else {
                    Some(Fault::Kind)
                }
            }
            _ => Some(Fault::Kind),
        }
    }

    /// Why it is no set.
    pub fn refuses_set(&self) -> Option<Fault>
        ensures { result ≡ set_test self.now }
    {
        match self {
            Meant::SetConst => None,
            _ => Some(Fault::Kind),
        }
    }

    /// Why it is no array of integers.
    pub fn refuses_ints(&self) -> Option<Fault>
        ensures { result ≡ ints_test self.now }
    {
        match self {
            Meant::IntArray { .. } => None,
            _ => Some(Fault::Kind),
        }
    }

    /// Why it is no array of Booleans.
    pub fn refuses_bools(&self) -> Option<Fault>
        ensures { result ≡ bools_test self.now }
    {
        match self {
            Meant::BoolArray { .. } => None,
            _ => Some(Fault::Kind),
        }
    }

    /// Why it is no array of integer constants.
    pub fn refuses_consts(&self) -> Option<Fault>
        ensures { result ≡ constants_test Kind no_test self.now }
    {
        match self {
            Meant::IntArray { elements, .. } => elements.refuses_variable(Fault::Kind),
            _ => Some(Fault::Kind),
        }
    }

    /// Why it is no array of coefficients.
    pub fn refuses_coefficients(&self) -> Option<Fault>
        ensures { result ≡ constants_test Kind beyond_small self.now }
    {
        match self {
            Meant::IntArray { elements, .. } => elements.refuses_coefficient(),
            _ => Some(Fault::Kind),
        }
    }

    /// Why it is no array of durations or usages.
    pub fn refuses_amounts(&self) -> Option<Fault>
        ensures { result ≡ constants_test Unsupported amount_limit self.now }
    {
        match self {
            Meant::IntArray { elements, .. } => elements.refuses_amount(),
            _ => Some(Fault::Kind),
        }
    }

    /// Why it is no array of Boolean constants.
    pub fn refuses_bool_consts(&self) -> Option<Fault>
        ensures { result ≡ bool_consts_test self.now }
    {
        match self {
            Meant::BoolArray { elements, .. } => elements.refuses_variable(),
            _ => Some(Fault::Kind),
        }
    }
}

impl ArgKind {
    /// Why a literal or a name with this meaning may not stand as this argument.
    pub fn refuses(self, meant: &Meant) -> Option<Fault>
        ensures { result ≡ wanted_test self meant.now }
    {
        match self {
            ArgKind::Int => meant.refuses_int(),
            ArgKind::Bool => meant.refuses_bool(),
            ArgKind::Ints => meant.refuses_ints(),
            ArgKind::Bools => meant.refuses_bools(),
            ArgKind::Consts => meant.refuses_consts(),
            ArgKind::BoolConsts => meant.refuses_bool_consts(),
            ArgKind::Coefficients => meant.refuses_coefficients(),
            ArgKind::Set => meant.refuses_set(),
            ArgKind::Const => meant.refuses_const(),
            ArgKind::Amounts => meant.refuses_amounts(),
            ArgKind::Amount => meant.refuses_amount(),
        }
    }

    /// Why a literal or a name with this meaning may not stand as an element of this argument.
    pub fn refuses_element(self, meant: &Meant) -> Option<Fault>
        ensures { result ≡ element_test (Some self) meant.now }
    {
        match self {
            ArgKind::Ints => meant.refuses_int(),
            ArgKind::Bools => meant.refuses_bool(),
            ArgKind::Consts => meant.refuses_const(),
            ArgKind::BoolConsts => meant.refuses_bool_const(),
            ArgKind::Coefficients => meant.refuses_coefficient(),
            ArgKind::Amounts => meant.refuses_amount(),
            _ => Some(Fault::Kind),
        }
    }

    /// Whether it is an array.
    pub fn wants_array(self) -> bool
        ensures { result ≡ wants_array (Some self) }
    {
        match self {
            ArgKind::Ints
            | ArgKind::Bools
            | ArgKind::Consts
            | ArgKind::BoolConsts
            | ArgKind::Coefficients
            | ArgKind::Amounts => true,
            _ => false,
        }
    }

    /// Whether it is a set.
    pub fn wants_set(self) -> bool
        ensures { result ≡ wants_set (Some self) }
    {
        match self {
            ArgKind::Set => true,
            _ => false,
        }
    }

    /// Whether the arrays beside it have to be as long as it is.
    pub fn pairs_arrays(self) -> bool
        ensures { result ≡ pairs_arrays self }
    {
        match self {
            ArgKind::Coefficients | ArgKind::Amounts => true,
            _ => false,
        }
    }
}
