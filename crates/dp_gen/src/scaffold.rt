//! The scaffolds.

ghost use Rattle.std.specs.Prelude.{◌≡◌, ◌++◌, ◌≤◌, IfOk, OnOk};
ghost use Rattle.std.specs.List.{flat_map};
ghost use Rattle.dp_gen.specs.Family as spec;

use dp_base::{Memory, Text};
use std::alloc::Global;

/// The scaffold of the model with n blocks, of n + 1 nogoods: that `z` does not hold, which does not follow and which
/// nothing rests on, and of each block that its `r` holds where the one before it does.
pub fn scaffold_of(alloc: Global, n: u32) -> Result<Text, Memory>
    requires { spec.IsSize n }
    ensures { IfOk result (λ text. text ≡ spec.scaffold_text n) }
{
    let mut text = Vec::new(alloc);
    text.extend_from_slice(b"a 1 [z >= 1]\nn 1 1\na 2 [r0 >= 1]\n")?;
    push_blocks(&mut text, n)?;
    text.extend_from_slice(b"c UNSAT\n")?;
    Ok(Text::new(text))
}

// The steps of all blocks.
fn push_blocks(text: &mut Vec<u8>, n: u32) -> Result<(), Memory>
    requires { n ≤ 5000 }
    ensures { OnOk result (text.new.items ≡ text.old.items ++ spec.text_of (flat_map spec.steps (spec.blocks n))) }
{
    for k in 1..n + 1 {
        push_steps(text, k)?;
    }
    Ok(())
}

// The steps of a block.
fn push_steps(text: &mut Vec<u8>, k: u32) -> Result<(), Memory>
    requires { k ≤ 5000 }
    ensures { OnOk result (text.new.items ≡ text.old.items ++ spec.text_of (spec.steps k)) }
{
    let step = k + 1;
    let atom = k + 2;
    let lines = format!(in *text.allocator(); "a {atom} [r{k} >= 1]\nn {step} {step} -{atom}\n")?;
    text.extend_from_slice(lines.as_bytes())?;
    Ok(())
}
