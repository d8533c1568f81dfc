//! Values, and their texts.

ghost use Rattle.std.specs.Prelude.{◌≡◌, ◌++◌, OnOk};
ghost use Rattle.std.specs.Fmt.{signed_decimal};
ghost use Rattle.fz_sat.specs.Satisfies.{valuation, value_of};
ghost use Rattle.fz_output.specs.Output as spec;

use dp_base::Memory;
use dp_domain::{Term, VarId};
use fz_model::{Basic, Item, VarType};
use fz_sat::term_of;

/// The items of a model, and the numbers of an assignment.
#[derive(Clone, Copy)]
pub struct Solution<'a> {
    pub items: &'a [Item],
    pub values: &'a [i64],
}

impl<'a> Solution<'a> {
    /// The value of the variable; 0 where the assignment has none for it.
    pub fn value_of_variable(&self, var: VarId) -> i64
        ensures { result ≡ valuation self.now.values.now var }
    {
        self.values.get(var.0 as usize).copied().unwrap_or(0)
    }

    /// The value of a literal or a name.
    pub fn value_of(&self, basic: Basic) -> i64
        ensures { result ≡ value_of self.now.items.now (valuation self.now.values.now) basic }
    {
        match term_of(self.items, basic) {
            Term::Var(var) => self.value_of_variable(var),
            Term::Const(value) => value,
        }
    }
}

/// An integer in decimal.
pub fn push_integer(text: &mut Vec<u8>, value: i64) -> Result<(), Memory>
    ensures { OnOk result (text.new.items ≡ text.old.items ++ signed_decimal value) }
{
    let digits = format!(in *text.allocator(); "{value}")?;
    text.extend_from_slice(digits.as_bytes())?;
    Ok(())
}

/// A Boolean.
fn push_truth(text: &mut Vec<u8>, value: bool) -> Result<(), Memory>
    ensures { OnOk result (text.new.items ≡ text.old.items ++ spec.truth_text value) }
{
    let word: &[u8] = if value { b"true" } else { b"false" };
    text.extend_from_slice(word)?;
    Ok(())
}

/// A number as a value of the type.
pub fn push_value(text: &mut Vec<u8>, kind: &VarType, value: i64) -> Result<(), Memory>
    ensures { OnOk result (text.new.items ≡ text.old.items ++ spec.value_text kind.now value) }
{
    match kind {
        VarType::Bool => push_truth(text, value >= 1),
        _ => push_integer(text, value),
    }
}
