// Where the variables of an element constraint stand.

ghost use Rattle.std.specs.Prelude.{◌≡◌};
ghost use Rattle.std.specs.List.{list_any};
ghost use Rattle.dp_rule_element.specs.Choices.{is_apart, selection, stand_apart};
ghost use Rattle.dp_rule_element.specs.Selections.{is_variable};

use crate::{Term, VarId};

/// Whether the term is this variable.
pub fn is_variable(term: Term, var: VarId) -> bool
    ensures { result ≡ is_variable term var }
{
    match term {
        Term::Var(own) => own == var,
        Term::Const(_) => false,
    }
}

/// Whether neither the index nor the value is a variable that stands at another place too. An entry
/// may stand again.
pub fn stand_apart(index: &Term, array: &[Term], value: &Term) -> bool
    ensures { result ≡ stand_apart (selection index.now array.now value.now) }
{
    is_apart(index, &[*value]) && is_apart(index, array) && is_apart(value, array)
}

/// Whether the term is no variable, or one that is none of the others.
fn is_apart(term: &Term, others: &[Term]) -> bool
    ensures { result ≡ is_apart term.now others.now }
{
    match term {
        Term::Var(var) => !has_variable(others, *var),
        Term::Const(_) => true,
    }
}

/// Whether one of the terms is the variable.
fn has_variable(terms: &[Term], var: VarId) -> bool
    ensures { result ≡ list_any (λ t. is_variable t var) terms.now }
{
    terms.iter().any(|term| is_variable(*term, var))
}
