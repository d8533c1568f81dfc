// Terms of which each variable stands at one position alone.

ghost use Rattle.std.specs.Prelude.{◌≡◌, ◌↔◌, IsTrue, length};
ghost use Rattle.dp_domain.specs.Terms.{term_scope, term_variables};
ghost use Rattle.dp_rule_alldiff.specs.Once.{AreOnce};

use crate::{Term, VarId};

/// Whether each variable stands at one position alone, of terms with this scope.
pub fn stand_once(terms: &[Term], scope: &[VarId]) -> bool
    requires { scope.now ≡ term_scope terms.now }
    ensures { IsTrue result ↔ AreOnce (term_variables terms.now) }
{
    variables(terms) == scope.len()
}

/// How many of the terms are variables.
fn variables(terms: &[Term]) -> usize
    ensures { result ≡ length (term_variables terms.now) }
{
    terms.iter().filter_map(|term| term.variable()).count()
}
