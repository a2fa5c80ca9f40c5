//! Laws of pictures and explanations, each the contract of a function that does nothing.

ghost use Rattle.mapdb_picture.specs.Laws.{ExplanationsAreOfAtoms, PicturesAreOfAtoms};

/// A picture depends on the atoms alone, of operations in which no two different records have one
/// name, as of each copy: these may come in any order, again, or in other parts.
#[tactic(auto, using(crate::proofs::SameAtoms::pictures_are_of_atoms))]
pub fn pictures_are_of_atoms()
    ensures { PicturesAreOfAtoms }
{}

/// An explanation depends on the atoms alone, of such operations too.
#[tactic(auto, using(crate::proofs::SameAtoms::explanations_are_of_atoms))]
pub fn explanations_are_of_atoms()
    ensures { ExplanationsAreOfAtoms }
{}
