// What is needed of the description of a state: the atoms that take out a value at which a part is met.

ghost use Rattle.std.specs.Prelude.{◌≡◌, ◌<◌, ◌++◌, [], ◌∷◌, false, filter, length, IfOk, OnOk};
ghost use Rattle.std.specs.List.{flat_map};
ghost use Rattle.dp_domain.specs.Atoms.{meets, negated};
ghost use Rattle.dp_domain.specs.Conditions.{IsApart};
ghost use Rattle.dp_domain.specs.Explanations.{described};
ghost use Rattle.dp_domain.specs.Faces.{Covers};
ghost use Rattle.dp_domain.specs.Sets.{IsDomain, is_among};
ghost use Rattle.dp_domain.specs.States.{IsWithin, fails_one, is_dead, values};
ghost use Rattle.dp_rule_clause.specs.Clauses.{AreDomains, failed_by, reasons_on, where_failing};
ghost use Rattle.dp_rule_clause.specs.Restrictions.{escapes, scope_of};

use crate::turns::values_of;
use crate::{Atom, Dom, Memory, State, VarId};

/// What is needed of the description of each variable of the scope for the nogood of these atoms.
pub fn nogood_reasons(
    atoms: &[Atom],
    scope: &[VarId],
    initial: &State,
    now: &State,
    target: &Option<Atom>,
) -> Result<Vec<Atom>, Memory>
    requires covers { Covers scope.now now.now }
    requires alive { is_dead now.now ≡ false }
    requires within { IsWithin now.now initial.now }
    ensures reasons { IfOk result (λ why. why.items ≡ flat_map (reasons_on (λ x. fails_one x atoms.now) target.now initial.now now.now) scope.now) }
    ensures domains { IfOk result (λ why. AreDomains initial.now scope.now) }
{
    let mut why = Vec::new(now.allocator());
    for var in scope {
        push_nogood_reasons(&mut why, atoms, initial, now, target, *var)?;
    }
    Ok(why)
}

/// Adds what is needed of the description of one variable.
fn push_nogood_reasons(
    why: &mut Vec<Atom>,
    atoms: &[Atom],
    initial: &State,
    now: &State,
    target: &Option<Atom>,
    var: VarId,
) -> Result<(), Memory>
    requires var { var < length now.now }
    requires alive { is_dead now.now ≡ false }
    requires within { IsWithin now.now initial.now }
    ensures reasons { OnOk result (why.new.items ≡ why.old.items ++ reasons_on (λ x. fails_one x atoms.now) target.now initial.now now.now var) }
    ensures domain { OnOk result (IsDomain (values initial.now var)) }
{
    let mut lost = where_failing(initial, var, target)?;
    lost.refute(var, atoms)?;
    push_failed(why, initial, now, var, &lost)
}

/// What is needed of the description of each variable of the restriction, in order of declaration.
pub fn restriction_reasons(
    cond: &Option<Atom>,
    var: VarId,
    set: &Dom,
    initial: &State,
    now: &State,
    target: &Option<Atom>,
) -> Result<Vec<Atom>, Memory>
    requires apart { IsApart cond.now (var ∷ []) }
    requires covers { Covers (scope_of (record { condition = cond.now; var = var; set = set.now })) now.now }
    requires alive { is_dead now.now ≡ false }
    requires within { IsWithin now.now initial.now }
    ensures reasons { IfOk result (λ why. why.items ≡ flat_map (reasons_on (escapes (record { condition = cond.now; var = var; set = set.now })) target.now initial.now now.now) (scope_of (record { condition = cond.now; var = var; set = set.now }))) }
    ensures domains { IfOk result (λ why. AreDomains initial.now (scope_of (record { condition = cond.now; var = var; set = set.now }))) }
{
    let mut why = Vec::new(now.allocator());
    match cond {
        None => push_within(&mut why, var, set, initial, now, target)?,
        Some(atom) if atom.var() < var => {
            push_against(&mut why, *atom, initial, now, target)?;
            push_within(&mut why, var, set, initial, now, target)?;
        }
        Some(atom) => {
            push_within(&mut why, var, set, initial, now, target)?;
            push_against(&mut why, *atom, initial, now, target)?;
        }
    }
    Ok(why)
}

/// Adds what takes out values of the set.
fn push_within(
    why: &mut Vec<Atom>,
    var: VarId,
    set: &Dom,
    initial: &State,
    now: &State,
    target: &Option<Atom>,
) -> Result<(), Memory>
    requires var { var < length now.now }
    requires alive { is_dead now.now ≡ false }
    requires within { IsWithin now.now initial.now }
    ensures reasons { OnOk result (why.new.items ≡ why.old.items ++ failed_by (filter (λ v. is_among v set.now) (where_failing target.now var (values initial.now var))) (described (values initial.now var) (values now.now var) var)) }
    ensures domain { OnOk result (IsDomain (values initial.now var)) }
{
    let lost = where_failing(initial, var, target)?.common(set)?;
    push_failed(why, initial, now, var, &lost)
}

/// Adds what takes out values that fail the condition.
fn push_against(
    why: &mut Vec<Atom>,
    cond: Atom,
    initial: &State,
    now: &State,
    target: &Option<Atom>,
) -> Result<(), Memory>
    requires var { cond.var < length now.now }
    requires alive { is_dead now.now ≡ false }
    requires within { IsWithin now.now initial.now }
    ensures reasons { OnOk result (why.new.items ≡ why.old.items ++ failed_by (filter (meets (negated cond)) (where_failing target.now cond.var (values initial.now cond.var))) (described (values initial.now cond.var) (values now.now cond.var) cond.var)) }
    ensures domain { OnOk result (IsDomain (values initial.now cond.var)) }
{
    let mut lost = where_failing(initial, cond.var(), target)?;
    lost.exclude(cond.negated())?;
    push_failed(why, initial, now, cond.var(), &lost)
}

/// The variable's values where the target fails.
pub fn where_failing(initial: &State, var: VarId, target: &Option<Atom>) -> Result<Dom, Memory>
    requires { var < length initial.now }
    ensures values { IfOk result (λ set. set ≡ where_failing target.now var (values initial.now var)) }
    ensures domain { IfOk result (λ set. IsDomain (values initial.now var)) }
{
    let mut set = values_of(initial, var)?;
    exclude_target(&mut set, var, target)?;
    Ok(set)
}

/// Takes out the values that meet the target, where it is on the variable.
fn exclude_target(set: &mut Dom, var: VarId, target: &Option<Atom>) -> Result<(), Memory>
    ensures { OnOk result (set.new ≡ where_failing target.now var set.old) }
{
    match target {
        Some(atom) if atom.var() == var => {
            set.exclude(atom.negated())?;
            Ok(())
        }
        _ => Ok(()),
    }
}

/// Adds those atoms of the variable's description that one of the numbers fails.
pub fn push_failed(
    why: &mut Vec<Atom>,
    initial: &State,
    now: &State,
    var: VarId,
    numbers: &Dom,
) -> Result<(), Memory>
    requires var { var < length now.now }
    requires alive { is_dead now.now ≡ false }
    requires within { IsWithin now.now initial.now }
    ensures { OnOk result (why.new.items ≡ why.old.items ++ failed_by numbers.now (described (values initial.now var) (values now.now var) var)) }
{
    let described = now.describe(initial, &[var])?;
    for atom in &described {
        push_if_failed(why, *atom, numbers)?;
    }
    Ok(())
}

/// Adds the atom where one of the numbers fails it.
fn push_if_failed(why: &mut Vec<Atom>, atom: Atom, numbers: &Dom) -> Result<(), Memory>
    ensures { OnOk result (why.new.items ≡ why.old.items ++ failed_by numbers.now (atom ∷ [])) }
{
    if !numbers.entails(atom) {
        why.push(atom)?;
    }
    Ok(())
}
