// Laws of what is shown, over the definitions alone.

ghost use Rattle.std.specs.Prelude.{◌≡◌, ℤ, IsSome, None};
ghost use Rattle.dp_base.specs.Lists.{Each};
ghost use Rattle.dp_lines.specs.declared.line.Line.{Line};
ghost use Rattle.dp_show.specs.Named.{Atoms, literal_atom};
ghost use Rattle.dp_show.specs.Showing.{literals, refusal};

/// Each literal of a line that no test refuses stands for a defined atom, so the line's text has its atom.
#[tactic(auto, using(crate::proofs::Literals::all_named))]
pub fn names()
    ensures { (atoms : Atoms) (line : Line) → refusal atoms line ≡ None → Each (λ (l : ℤ). IsSome (literal_atom atoms l)) (literals line) }
{}
