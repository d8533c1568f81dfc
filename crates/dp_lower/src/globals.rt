//! Constraints on whole arrays: an entry at an index, terms that differ, tasks that share a capacity.

ghost use Rattle.std.specs.Prelude.{◌≡◌, [], ◌∷◌, IfOk};
ghost use Rattle.dp_rule_cumulative.specs.Refusals.{IsProper};
ghost use Rattle.dp_rule_cumulative.specs.Schedules.{given};
ghost use Rattle.fz_model.specs.declared.kinds.ArgKind.TheVariants as arg;
ghost use Rattle.fz_sat.specs.Args.{terms_of};
ghost use Rattle.fz_facts.specs.Facts.{AreFit, ArePaired};
ghost use Rattle.dp_lower.specs.Globals as spec;
ghost use Rattle.dp_lower.specs.Recipe.{args_in};
ghost use Rattle.dp_lower.specs.Sums.{number_in};

use crate::terms::{arg_number, arg_terms};
use dp_domain::{Memory, Term};
use dp_parts::Part;
use dp_rule_alldiff::AllDiff;
use dp_rule_cumulative::{Cumulative, TaskRefusal};
use dp_rule_element::Element;
use fz_model::{Basic, Expr, Item};
use fz_sat::{arg_elements, arg_term, term_of};
use std::alloc::Global;

/// The parts of an element constraint: the entry of the second argument at the index in the first is the third.
pub fn selected(alloc: Global, items: &[Item], args: &[Expr]) -> Result<Vec<Part>, Memory>
    ensures { IfOk result (λ parts. let a = args_in items.now args.now in parts.items ≡ spec.selected (a.term 0) (a.terms 1) (a.term 2)) }
{
    let array = arg_terms(alloc, items, args, 1)?;
    let rule = Element::new(
        alloc,
        arg_term(items, args, 0),
        array,
        arg_term(items, args, 2),
    )?;
    one_part(alloc, Part::Element(rule))
}

/// The parts of an all-different constraint: the first argument's terms differ at all positions.
pub fn all_different(alloc: Global, items: &[Item], args: &[Expr]) -> Result<Vec<Part>, Memory>
    ensures { IfOk result (λ parts. parts.items ≡ spec.all_different ((args_in items.now args.now).terms 0)) }
{
    let rule = AllDiff::new(alloc, arg_terms(alloc, items, args, 0)?)?;
    one_part(alloc, Part::AllDiff(rule))
}

/// The parts of a cumulative constraint of starts, durations, uses and a capacity.
pub fn scheduled(alloc: Global, items: &[Item], args: &[Expr]) -> Result<Vec<Part>, Memory>
    requires fit { AreFit items.now args.now 0 (arg.Ints ∷ arg.Amounts ∷ arg.Amounts ∷ arg.Amount ∷ []) }
    requires paired { ArePaired items.now args.now (arg.Ints ∷ arg.Amounts ∷ arg.Amounts ∷ arg.Amount ∷ []) }
    ensures { IfOk result (λ parts. let a = args_in items.now args.now in parts.items ≡ spec.scheduled (a.terms 0) (a.terms 1) (a.terms 2) (a.term 3)) }
{
    let starts = arg_terms(alloc, items, args, 0)?;
    let durations = numbers_of(alloc, items, arg_elements(items, args, 1))?;
    let uses = numbers_of(alloc, items, arg_elements(items, args, 2))?;
    schedule(alloc, starts, durations, uses, arg_number(items, args, 3))
}

/// The elements as numbers, 0 for each that is a variable.
fn numbers_of(alloc: Global, items: &[Item], elements: &[Basic]) -> Result<Vec<i64>, Memory>
    ensures { IfOk result (λ numbers. numbers.items ≡ spec.numbers_in (terms_of items.now elements.now)) }
{
    let mut numbers = Vec::new(alloc);
    for element in elements {
        numbers.push(number_of(&term_of(items, *element)))?;
    }
    Ok(numbers)
}

/// The parts of the schedule that these make.
fn schedule(
    alloc: Global,
    starts: Vec<Term>,
    durations: Vec<i64>,
    uses: Vec<i64>,
    capacity: i64,
) -> Result<Vec<Part>, Memory>
    requires { IsProper (given starts.items durations.items uses.items capacity) }
    ensures { IfOk result (λ parts. parts.items ≡ spec.scheduled_by (given starts.items durations.items uses.items capacity)) }
{
    match Cumulative::new(alloc, starts, durations, uses, capacity) {
        Ok(rule) => one_part(alloc, Part::Cumulative(rule)),
        Err(TaskRefusal::Memory(memory)) => Err(memory),
        Err(_) => unreachable!(),
    }
}

/// The number that the term is; 0 where it is a variable.
fn number_of(term: &Term) -> i64
    ensures { result ≡ number_in term.now }
{
    match term {
        Term::Const(value) => *value,
        Term::Var(_) => 0,
    }
}

/// The one part.
pub fn one_part(alloc: Global, part: Part) -> Result<Vec<Part>, Memory>
    ensures { IfOk result (λ parts. parts.items ≡ part ∷ []) }
{
    let mut parts = Vec::new(alloc);
    parts.push(part)?;
    Ok(parts)
}
