//! The models.

ghost use Rattle.std.specs.Prelude.{◌≡◌, ◌++◌, ◌≤◌, [], ◌∷◌, map, IfOk, OnOk};
ghost use Rattle.dp_gen.specs.Family as spec;

use dp_base::{Memory, Text};
use std::alloc::Global;

/// The model with n blocks: `r0` holds, `rk` holds where the `r` before it does, whatever `qk` is, and the last does not.
/// It has 2n + 2 variables and as many constraints, and no solution.
pub fn model_of(alloc: Global, n: u32) -> Result<Text, Memory>
    requires { spec.IsSize n }
    ensures { IfOk result (λ text. text ≡ spec.model_text n) }
{
    let mut text = Vec::new(alloc);
    push_declarations(&mut text, n)?;
    push_clauses(&mut text, n)?;
    text.extend_from_slice(b"solve satisfy;\n")?;
    Ok(Text::new(text))
}

// The declarations of all variables.
fn push_declarations(text: &mut Vec<u8>, n: u32) -> Result<(), Memory>
    requires { n ≤ 5000 }
    ensures { OnOk result (text.new.items ≡ text.old.items ++ spec.text_of (map spec.declares (spec.variables n))) }
{
    text.extend_from_slice(b"var bool: z;\nvar bool: r0;\n")?;
    for k in 1..n + 1 {
        push_brought(text, k)?;
    }
    Ok(())
}

// The declarations of a block's variables.
fn push_brought(text: &mut Vec<u8>, k: u32) -> Result<(), Memory>
    ensures { OnOk result (text.new.items ≡ text.old.items ++ spec.text_of (map spec.declares (spec.brought k))) }
{
    let lines = format!(in *text.allocator(); "var bool: q{k};\nvar bool: r{k};\n")?;
    text.extend_from_slice(lines.as_bytes())?;
    Ok(())
}

// All constraints.
fn push_clauses(text: &mut Vec<u8>, n: u32) -> Result<(), Memory>
    requires { n ≤ 5000 }
    ensures { OnOk result (text.new.items ≡ text.old.items ++ spec.text_of (map spec.constrains (spec.clauses n))) }
{
    text.extend_from_slice(b"constraint bool_clause([r0],[]);\n")?;
    for k in 1..n + 1 {
        push_links(text, k)?;
    }
    push_last(text, n)
}

// The constraints of a block.
fn push_links(text: &mut Vec<u8>, k: u32) -> Result<(), Memory>
    requires { 1 ≤ k }
    ensures { OnOk result (text.new.items ≡ text.old.items ++ spec.text_of (map spec.constrains (spec.links k))) }
{
    let j = k - 1;
    let q_fails = format!(in *text.allocator(); "constraint bool_clause([r{k},q{k}],[r{j}]);\n")?;
    let q_holds = format!(in *text.allocator(); "constraint bool_clause([r{k}],[r{j},q{k}]);\n")?;
    text.extend_from_slice(q_fails.as_bytes())?;
    text.extend_from_slice(q_holds.as_bytes())?;
    Ok(())
}

// The constraint behind the last block.
fn push_last(text: &mut Vec<u8>, n: u32) -> Result<(), Memory>
    ensures { OnOk result (text.new.items ≡ text.old.items ++ spec.text_of (spec.constrains (spec.or_not [] (spec.r n ∷ [])) ∷ [])) }
{
    let line = format!(in *text.allocator(); "constraint bool_clause([],[r{n}]);\n")?;
    text.extend_from_slice(line.as_bytes())?;
    Ok(())
}
