// The theorems on lattices of rows.
ghost use Rattle.sublattice.specs.Laws.{PivotsMultiply, RemaindersAreNumbered, RemaindersTellClasses};

/// The pivots of the lattice that rows generate multiply to the size of their determinant.
#[tactic(auto, using(crate::proofs::RowNumbers::pivots_multiply))]
pub fn pivots_multiply()
    ensures theorem { PivotsMultiply }
{}

/// The remainders are numbered in rising order, from 0 to below the product of the pivots.
#[tactic(auto, using(crate::proofs::Numbers::remainders_numbered))]
pub fn remainders_are_numbered()
    ensures theorem { RemaindersAreNumbered }
{}

/// Each vector has one remainder; vectors have one if and only if they differ by a member.
#[tactic(auto, using(crate::proofs::Numbers::tell_classes))]
pub fn remainders_tell_classes()
    ensures theorem { RemaindersTellClasses }
{}
