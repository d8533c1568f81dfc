// The command that generates a model and a scaffold of it.

ghost use Rattle.std.specs.Prelude.{◌≡◌, ◌≤◌, ◌++◌, IfOk, codes};
ghost use Rattle.std.specs.Fmt.{decimal};
ghost use Rattle.dp_command.specs.Families.{IsFamily};
ghost use Rattle.dp_command.specs.Texts as texts;

use crate::outcome::{File, push_number};
use dp_base::Memory;
use dp_gen::{model_of, scaffold_of};
use std::alloc::Global;

/// A generated model and its scaffold, each of which is to be written to a file.
#[derive(Debug, Drop)]
pub(crate) struct Family {
    /// The model.
    pub(crate) model: File,
    /// The scaffold.
    pub(crate) scaffold: File,
    /// How many variables the model has.
    pub(crate) variables: u32,
    /// How many constraints it has.
    pub(crate) constraints: u32,
    /// How many nogoods the scaffold has, without the conclusion.
    pub(crate) nogoods: u32,
}

/// Generates the model with so many blocks and its scaffold, which are to be written under these names.
pub(crate) fn generate(alloc: Global, n: u32, model: &str, scaffold: &str) -> Result<Family, Memory>
    requires some { 1 ≤ n }
    requires few { n ≤ 5000 }
    ensures { IfOk result (IsFamily n model.now scaffold.now) }
{
    Ok(Family {
        model: File {
            name: String::from_str(alloc, model)?,
            text: model_of(alloc, n)?,
        },
        scaffold: File {
            name: String::from_str(alloc, scaffold)?,
            text: scaffold_of(alloc, n)?,
        },
        variables: 2 * n + 2,
        constraints: 2 * n + 2,
        nogoods: n + 1,
    })
}

/// The line that counts what was generated.
pub(crate) fn family_text(alloc: Global, family: &Family) -> Result<Vec<u8>, Memory>
    ensures { IfOk result (λ text. text.items ≡ texts.family_text family.now) }
{
    let mut text = sizes_text(alloc, family.variables, family.constraints)?;
    let nogoods = family.nogoods;
    let end = format!(in alloc; " constraints, {nogoods} nogoods")?;
    text.extend_from_slice(end.as_bytes())?;
    text.push(b'\n')?;
    Ok(text)
}

// How large the model is.
fn sizes_text(alloc: Global, variables: u32, constraints: u32) -> Result<Vec<u8>, Memory>
    ensures { IfOk result (λ text. text.items ≡ codes "generated: " ++ decimal variables ++ codes " variables, " ++ decimal constraints) }
{
    let mut text = b"generated: ".to_vec(alloc)?;
    push_number(&mut text, u64::from(variables))?;
    text.extend_from_slice(b" variables, ")?;
    push_number(&mut text, u64::from(constraints))?;
    Ok(text)
}
