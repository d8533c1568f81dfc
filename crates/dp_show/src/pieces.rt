// Showing a log that comes in pieces.

ghost use Rattle.std.specs.Prelude.{◌≡◌, [], Some, IfOk};
ghost use Rattle.dp_show.specs.Pieces.{HasShown, IsBehind, IsDue, IsUnrefused, Refuses, quiet};
ghost use Rattle.dp_show.specs.declared.shown.Shown.{Shown};

use crate::named::NamedAtom;
use crate::show::show_line;
use crate::{Refusal, Shown};
use dp_domain::{Memory, Text};
use dp_lines::{InPieces, Line, LineRefusal, LineTaker};
use indexmap::IndexMap;
use std::alloc::Global;
use std::marker::Model;
use std::mem;

/// A log that is shown line by line.
#[derive(Drop)]
pub struct Showing {
    alloc: Global,
    atoms: IndexMap<u64, NamedAtom>,
    text: Vec<u8>,
}

impl Model for Showing {
    ghost use Rattle.dp_show.specs.Pieces.{Going};

    ghost Value = { Going };

    ghost view = { λ j. record { text = j.text.items; atoms = j.atoms.entries } };
}

impl Showing {
    /// A log that is shown while it comes, and of which nothing has come.
    pub fn new(alloc: Global) -> Result<InPieces<Showing>, Memory>
        ensures { IfOk result (λ showing. IsBehind showing []) }
    {
        let showing = Showing {
            alloc,
            atoms: IndexMap::new(alloc),
            text: Vec::new(alloc),
        };
        Ok(InPieces::new(alloc, showing))
    }
}

impl LineTaker for Showing {
    type Answer = Shown;

    ghost took = { HasShown };

    ghost due = { IsDue };

    ghost refuses = { Refuses };

    ghost unrefused = { IsUnrefused };

    fn take(&mut self, number: u64, line: Line) -> Result<Option<Shown>, Memory> {
        match show_line(self.alloc, &mut self.atoms, &mut self.text, number, line)? {
            None => Ok(None),
            Some(refusal) => Ok(Some(refused(self.alloc, &mut self.text, refusal))),
        }
    }

    fn unread(&mut self, refusal: LineRefusal) -> Shown {
        refused(self.alloc, &mut self.text, Refusal::Unread(refusal))
    }

    fn finish(self, _count: u64) -> Shown {
        shown(self.text, None)
    }

    ghost quiet = { λ j given front h e. quiet j given front h e };
}

/// What is shown in the end.
fn shown(text: Vec<u8>, refusal: Option<Refusal>) -> Shown
    ensures { result ≡ record { steps = text.items; refusal = refusal } }
{
    Shown {
        steps: Text::new(text),
        refusal,
    }
}

/// What is shown where a line is refused: what was shown so far.
fn refused(alloc: Global, text: &mut Vec<u8>, refusal: Refusal) -> Shown
    ensures { result ≡ record { steps = text.old.items; refusal = Some refusal } }
{
    shown(mem::replace(text, Vec::new(alloc)), Some(refusal))
}
