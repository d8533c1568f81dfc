// What is asked of a search, and what it keeps.

use dp_base::Assignment;
use dp_domain::Atom;
use dp_engine::Engine;
use dp_parts::{Goal, Problem};
use dp_writer::Writer;
use std::alloc::Global;

/// A problem whose initial domains are cut by the atoms, and whose goal is this; and how many nogoods
/// may be learned at most.
#[derive(Drop)]
pub(crate) struct Task<'p> {
    pub alloc: Global,
    pub problem: &'p Problem,
    pub atoms: &'p [Atom],
    pub goal: Goal,
    pub most: u64,
}

/// The engine, the mark of the initial domains in it, the writer, and how many nogoods were learned.
#[derive(Drop)]
pub(crate) struct Search<'i, 'p> {
    pub engine: Engine<'i, 'p>,
    pub root: usize,
    pub writer: Writer,
    pub learned: u64,
}

/// A solution, and the bound at its value of the goal's variable.
#[derive(Debug, Drop)]
pub(crate) struct Best {
    pub numbers: Assignment,
    pub bound: Atom,
}
