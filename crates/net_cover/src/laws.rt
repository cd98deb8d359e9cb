// What holds of covers and of their faults. Each function carries a theorem.
ghost use Rattle.net_cover.specs.Laws.{OneCover, OneCoverFault, CoverIsNotRefused};

/// The cover of a graph on a cell, with its edges in order, is one.
pub fn one_cover()
    ensures theorem { OneCover }
{}

/// Two faults that apply are one, running out of memory aside. So the first cause is reported.
#[tactic(auto, using(crate::proofs::OneCover::one_cover_fault))]
pub fn one_cover_fault()
    ensures theorem { OneCoverFault }
{}

/// If a graph has a cover within the limits, no fault applies but running out of memory.
#[tactic(auto, using(crate::proofs::OneCover::cover_is_not_refused))]
pub fn cover_is_not_refused()
    ensures theorem { CoverIsNotRefused }
{}
