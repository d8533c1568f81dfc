// Spans: the least and the greatest value of each position, and intervals with too many of them.

ghost use Rattle.std.specs.Prelude.{◌≡◌, ◌==◌, ◌++◌, pos, ◌+ℤ◌, ◌-ℤ◌, int_le, int_lt, [], ◌∷◌, IfOk, IsPermutation, OnOk, length};
ghost use Rattle.std.specs.List.{list_any};
ghost use Rattle.dp_base.specs.Lists.{Each};
ghost use Rattle.dp_domain.specs.Terms.{AreTermsOf, IsTermOf, term_values};
ghost use Rattle.dp_rule_alldiff.specs.Spans.{AreInOrder, IsSpan, has_crowd, is_crowded_from, span_of, spans_of};

use crate::{Memory, State, Term, VarId};

/// Whether the variable is one of these.
pub fn has_variable(scope: &[VarId], var: VarId) -> bool
    ensures { result ≡ list_any (λ y. var == y) scope.now }
{
    scope.iter().any(|own| var == *own)
}

/// The least and the greatest value of the term at the state; None where it has none.
fn span(term: &Term, state: &State) -> Option<(i64, i64)>
    requires { IsTermOf (length state.now) term.now }
    ensures { result ≡ span_of (term_values state.now term.now) }
{
    match (term.lower(state), term.upper(state)) {
        (Some(lower), Some(upper)) => Some((lower, upper)),
        _ => None,
    }
}

/// Adds the span of the term, if it has one.
fn push_span(spans: &mut Vec<(i64, i64)>, term: &Term, state: &State) -> Result<(), Memory>
    requires { IsTermOf (length state.now) term.now }
    ensures { OnOk result (spans.new.items ≡ spans.old.items ++ spans_of state.now (term.now ∷ [])) }
{
    if let Some(span) = span(term, state) {
        spans.push(span)?;
    }
    Ok(())
}

/// The span of each position that has values.
pub fn spans(terms: &[Term], state: &State) -> Result<Vec<(i64, i64)>, Memory>
    requires { AreTermsOf (length state.now) terms.now }
    ensures { IfOk result (λ list. list.items ≡ spans_of state.now terms.now) }
{
    let mut spans = Vec::new(state.allocator());
    for term in terms {
        push_span(&mut spans, term, state)?;
    }
    Ok(spans)
}

/// Whether some interval has more of the spans within it than it has numbers.
pub fn has_crowd(spans: Vec<(i64, i64)>) -> bool
    requires { Each IsSpan spans.items }
    ensures { result ≡ has_crowd spans.items }
{
    let ordered = in_order(spans);
    finds_crowd(&ordered)
}

/// The same spans by their last numbers.
pub fn in_order(spans: Vec<(i64, i64)>) -> Vec<(i64, i64)>
    ensures order { AreInOrder result.items }
    ensures same { IsPermutation spans.items result.items }
{
    let mut spans = spans;
    spans.sort_unstable_by_key(|(_, last)| *last);
    spans
}

/// Whether some interval has more of the spans within it than it has numbers.
pub fn finds_crowd(spans: &[(i64, i64)]) -> bool
    requires order { AreInOrder spans.now }
    requires spans { Each IsSpan spans.now }
    ensures { result ≡ has_crowd spans.now }
{
    for (first, _) in spans {
        if is_crowded_from(*first, spans) {
            return true;
        }
    }
    false
}

/// Whether some interval from the number on has more of the spans within it than it has numbers.
fn is_crowded_from(first: i64, spans: &[(i64, i64)]) -> bool
    requires order { AreInOrder spans.now }
    requires spans { Each IsSpan spans.now }
    ensures { result ≡ is_crowded_from spans.now first }
{
    let mut count = 0;
    for span in spans {
        if begins_from(first, span) {
            count += 1;
            if is_exceeded(first, span, count) {
                return true;
            }
        }
    }
    false
}

/// Whether the span begins with the number or later.
pub fn begins_from(first: i64, span: &(i64, i64)) -> bool
    ensures { result ≡ int_le first span.now.0 }
{
    first <= span.0
}

/// Whether the count exceeds how many numbers there are from the first to the last of the span.
fn is_exceeded(first: i64, span: &(i64, i64), count: usize) -> bool
    ensures { result ≡ int_lt ((span.now.1 -ℤ first) +ℤ pos 1) (pos count) }
{
    size(first, span.1) < count as i128
}

/// How many numbers there are from the first to the last; at most 0 where the last comes first.
pub fn size(first: i64, last: i64) -> i128
    ensures { result ≡ (last -ℤ first) +ℤ pos 1 }
{
    i128::from(last) - i128::from(first) + 1
}
