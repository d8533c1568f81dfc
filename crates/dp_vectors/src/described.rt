// Parts in words: what the tests of the table of constraints compare.
use dp_domain::{Atom, Dom, Memory, Op, Term, VarId};
use dp_parts::Part;
use dp_rule_cumulative::Task;
use std::alloc::Global;

/// The variables of the table's models, in order.
const NAMES: [&str; 6] = ["x", "y", "z", "a", "b", "r"];

// The variable's name.
fn name_of(var: VarId) -> &'static str {
    match NAMES.get(var.0 as usize) {
        Some(name) => *name,
        None => "?",
    }
}

// A variable by its name, or a number.
fn push_term(text: &mut String, term: Term) -> Result<(), Memory> {
    match term {
        Term::Var(var) => text.push_str(name_of(var))?,
        Term::Const(value) => {
            let number = format!(in *text.allocator(); "{value}")?;
            text.push_str(number.as_str())?;
        }
    }
    Ok(())
}

// A Boolean that holds, or after a `!` one that fails.
fn push_atom(text: &mut String, atom: Atom) -> Result<(), Memory> {
    if atom.op() == Op::Le {
        text.push_str("!")?;
    }
    text.push_str(name_of(atom.var()))?;
    Ok(())
}

// The condition, if there is one.
fn push_condition(text: &mut String, condition: Option<Atom>) -> Result<(), Memory> {
    if let Some(atom) = condition {
        push_atom(text, atom)?;
        text.push_str(": ")?;
    }
    Ok(())
}

// The terms of a sum, each behind a blank, then the mark and the number.
fn push_sum(
    text: &mut String,
    terms: &[(i64, VarId)],
    mark: &str,
    number: i128,
) -> Result<(), Memory> {
    for (coefficient, var) in terms {
        let name = name_of(*var);
        let term = format!(in *text.allocator(); "{coefficient}{name} ")?;
        text.push_str(term.as_str())?;
    }
    let rest = format!(in *text.allocator(); "{mark} {number}")?;
    text.push_str(rest.as_str())?;
    Ok(())
}

// Atoms in round brackets.
fn push_nogood(text: &mut String, atoms: &[Atom]) -> Result<(), Memory> {
    text.push_str("ng(")?;
    for (place, atom) in atoms.iter().enumerate() {
        if place > 0 {
            text.push_str(" ")?;
        }
        push_atom(text, *atom)?;
    }
    text.push_str(")")?;
    Ok(())
}

// Terms, each behind a blank.
fn push_terms(text: &mut String, terms: &[Term]) -> Result<(), Memory> {
    for term in terms {
        text.push_str(" ")?;
        push_term(text, *term)?;
    }
    Ok(())
}

// The intervals of a set, each behind a blank.
fn push_set(text: &mut String, alloc: Global, set: &Dom) -> Result<(), Memory> {
    for (first, last) in &set.intervals(alloc)? {
        let interval = format!(in alloc; " {first}..{last}")?;
        text.push_str(interval.as_str())?;
    }
    Ok(())
}

// Tasks as start, duration and use, each behind a blank.
fn push_tasks(text: &mut String, tasks: &[Task]) -> Result<(), Memory> {
    for task in tasks {
        text.push_str(" ")?;
        push_term(text, task.start)?;
        let rest = format!(in *text.allocator(); ":{}*{}", task.duration, task.usage)?;
        text.push_str(rest.as_str())?;
    }
    Ok(())
}

// A word and terms.
fn push_named(text: &mut String, word: &str, terms: &[Term]) -> Result<(), Memory> {
    text.push_str(word)?;
    push_terms(text, terms)
}

/// Writes the part.
pub fn push_part(text: &mut String, alloc: Global, part: &Part) -> Result<(), Memory> {
    match part {
        Part::LinLe(rule) => {
            push_condition(text, rule.cond())?;
            push_sum(text, rule.terms(), "<=", rule.rhs())
        }
        Part::LinNe(rule) => {
            push_condition(text, rule.cond())?;
            push_sum(text, rule.terms(), "!=", rule.rhs())
        }
        Part::Nogood(rule) => push_nogood(text, rule.atoms()),
        Part::Within(rule) => {
            push_condition(text, rule.cond())?;
            text.push_str(name_of(rule.var()))?;
            text.push_str(" in")?;
            push_set(text, alloc, rule.set())
        }
        Part::Element(rule) => {
            text.push_str("element ")?;
            push_term(text, rule.index())?;
            text.push_str(" [")?;
            push_terms(text, rule.array())?;
            text.push_str(" ] ")?;
            push_term(text, rule.value())
        }
        Part::Cumulative(rule) => {
            let capacity = format!(in alloc; "at most {}:", rule.capacity())?;
            text.push_str(capacity.as_str())?;
            push_tasks(text, rule.tasks())
        }
        Part::AllDiff(rule) => {
            text.push_str("differ")?;
            push_terms(text, rule.terms())
        }
        Part::Times(rule) => push_named(text, "times", &[rule.a, rule.b, rule.c]),
        Part::Greatest(rule) => push_named(text, "maximum", &[rule.a, rule.b, rule.c]),
        Part::Least(rule) => push_named(text, "minimum", &[rule.a, rule.b, rule.c]),
        Part::Absolute(rule) => push_named(text, "absolute", &[rule.a, rule.b]),
    }
}
