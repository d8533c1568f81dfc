//! What the tests of a model's text have shown of the model.

ghost use Rattle.fz_facts.specs.Facts.{IsWellFormed};
ghost use Rattle.fz_model.specs.Models.{IsModel, Plan};

/// The names of a model's variables have the form of names, and no two are equal. Variables are numbered in the order of
/// their declarations. Types, definitions and elements keep their limits. Each constraint is known, its arguments are such as
/// it wants, and its arrays have equal lengths where it pairs them. The goal names a variable.
pub fn facts()
    ensures well_formed { (m : Plan) → IsModel m → IsWellFormed m }
{}
