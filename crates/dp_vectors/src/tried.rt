// One constraint among declarations, tried with values.
use crate::{Judgement, judge_assignment};
use dp_base::Memory;
use std::alloc::Global;

/// A constraint, values of the variables, and whether they satisfy it.
pub type Row = (&'static str, &'static [i64], bool);

// The text of a model with one constraint.
fn text_of(alloc: Global, declared: &str, constraint: &str) -> Result<Vec<u8>, Memory> {
    let mut text = Vec::new(alloc);
    text.extend_from_slice(declared.as_bytes())?;
    text.extend_from_slice(b" constraint ")?;
    text.extend_from_slice(constraint.as_bytes())?;
    text.extend_from_slice(b"; solve satisfy;")?;
    Ok(text)
}

/// Whether the values satisfy the constraint among the declarations; None where the text is refused, or where there is
/// another number of values than of variables.
pub fn tried(
    alloc: Global,
    declared: &str,
    constraint: &str,
    values: &[i64],
) -> Result<Option<bool>, Memory> {
    let text = text_of(alloc, declared, constraint)?;
    match judge_assignment(alloc, text.as_slice(), values) {
        Ok(Judgement::Judged { satisfied, .. }) => Ok(Some(satisfied)),
        Ok(Judgement::WrongCount(_)) | Err(_) => Ok(None),
    }
}
