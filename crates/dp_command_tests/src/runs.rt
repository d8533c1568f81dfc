// Runs over desks in memory: what the tests of all commands share.
use dp_base::{Name, Text};
use dp_command::run;
use dp_desk::{MemoryDesk, Out};
use dp_pool::Open;
use std::alloc::{AllocError, Global};
use std::thread::Threads;

// Two inequalities that no x and y meet together.
pub const MODEL: &str =
    "var 0..3: x;\nvar 0..3: y;\nconstraint int_lin_le([1,1],[x,y],2);\nconstraint int_lin_le([-1,-1],[x,y],-3);\nsolve satisfy;\n";

// A log that proves it, up to its line 14.
pub const STEPS: &str =
    "a 1 [x >= 3]\ni 1 0 -1 c:1 l:linear\na 2 [y >= 3]\ni 2 0 -2 c:1 l:linear\na 3 [x >= 1]\ni 3 -2 0 3 c:2 l:linear\na 4 [y >= 2]\ni 4 3 0 -4 c:1 l:linear\na 5 [x >= 2]\ni 5 -4 0 5 c:2 l:linear\na 6 [y >= 1]\ni 6 5 0 -6 c:1 l:linear\ni 7 -1 -6 0 c:2 l:linear\n";

// A model whose least value is 7.
pub const MINIMUM: &str = "var 0..9: obj;\nconstraint int_le(7,obj);\nsolve minimize obj;\n";

// Four variables that differ, over three numbers.
pub const DIFFERENT: &str =
    "var 0..2: x;\nvar 0..2: y;\nvar 0..2: z;\nvar 0..2: w;\nconstraint int_ne(x,y);\nconstraint int_ne(x,z);\nconstraint int_ne(x,w);\nconstraint int_ne(y,z);\nconstraint int_ne(y,w);\nconstraint int_ne(z,w);\nsolve satisfy;\n";

// A desk with a model and a log of these names.
pub fn desk_of(
    alloc: Global,
    model: &str,
    log: &[u8],
    piece: usize,
    failing: &[u64],
) -> Result<MemoryDesk, AllocError> {
    let mut files = Vec::new(alloc);
    for (name, text) in [("m", model.as_bytes()), ("l", log)] {
        let name = Name::new(name.as_bytes().to_vec(alloc)?);
        files.push((name, Text::new(text.to_vec(alloc)?)))?;
    }
    Ok(MemoryDesk::new(alloc, files, piece.max(1), failing.to_vec(alloc)?))
}

// The status and the answer of a run over a desk with a model and a log.
pub fn answered<R: Threads + Sync>(
    rt: &R,
    alloc: Global,
    words: &[&str],
    model: &str,
    log: &[u8],
    piece: usize,
    failing: &[u64],
) -> Result<(u8, Vec<u8>), AllocError> {
    let mut desk = desk_of(alloc, model, log, piece, failing)?;
    let status = run(rt, alloc, words, &mut desk, &Open);
    let answer = desk.written(Out::Answer).unwrap_or(b"not told");
    Ok((status, answer.to_vec(alloc)?))
}

// The status, the answer and the file of a run, where the file was opened.
#[derive(Drop)]
pub struct Left {
    pub status: u8,
    pub answer: Vec<u8>,
    pub file: Option<Vec<u8>>,
}

impl Left {
    // Whether these were left.
    pub fn is(&self, status: u8, answer: &[u8], file: Option<&[u8]>) -> bool {
        self.status == status && self.answer.as_slice() == answer && is_file(&self.file, file)
    }
}

// Whether this is the file, or none was opened.
fn is_file(left: &Option<Vec<u8>>, wanted: Option<&[u8]>) -> bool {
    match (left, wanted) {
        (Some(left), Some(wanted)) => left.as_slice() == wanted,
        (None, None) => true,
        (Some(_), None) | (None, Some(_)) => false,
    }
}

// What is left by a run over a desk with a model and a log.
pub fn left_by<R: Threads + Sync>(
    rt: &R,
    alloc: Global,
    words: &[&str],
    model: &str,
    log: &[u8],
    piece: usize,
    failing: &[u64],
) -> Result<Left, AllocError> {
    let mut desk = desk_of(alloc, model, log, piece, failing)?;
    let status = run(rt, alloc, words, &mut desk, &Open);
    let answer = desk.written(Out::Answer).unwrap_or(b"not told");
    let answer = answer.to_vec(alloc)?;
    let file = match desk.written(Out::First) {
        Some(bytes) => Some(bytes.to_vec(alloc)?),
        None => None,
    };
    Ok(Left {
        status,
        answer,
        file,
    })
}

// The first bytes of a text.
pub fn front(text: &[u8], count: usize) -> &[u8] {
    text.get(..count).unwrap_or(text)
}
