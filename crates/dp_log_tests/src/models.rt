// Problems and atoms of tables, and readers of short texts.
use dp_base::Memory;
use dp_domain::{Atom, Op};
use dp_lines::{Limits, Reader};
use dp_lower::lower;
use dp_parts::Problem;
use fz_items::read_model;
use std::alloc::Global;

/// An atom as it is written in a table: the place of its variable, a comparison and a number.
pub type Used = (u32, Op, i64);

/// The problem of the text of a model.
pub fn problem_of(alloc: Global, model: &str) -> Result<Problem, Memory> {
    match read_model(alloc, model.as_bytes()) {
        Ok(model) => lower(alloc, &model),
        Err(_) => Err(Memory),
    }
}

/// Whether this is the atom of a table.
pub fn is_atom(atom: &Atom, used: &Used) -> bool {
    let (var, op, value) = *used;
    atom.var().0 == var && atom.op() == op && atom.value() == value
}

const LIMITS: Limits = Limits {
    line: 1000,
    total: 1000,
};

/// A reader of the lines of a short text.
pub fn reader_of(alloc: Global, text: &[u8]) -> Result<Reader, Memory> {
    let mut reader = Reader::new(alloc, LIMITS);
    if text.len() > 1000 {
        return Err(Memory);
    }
    reader.feed(text)?;
    reader.end();
    Ok(reader)
}
