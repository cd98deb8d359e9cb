// What holds of refusals, and of nets with their keys. Each function carries a theorem.
ghost use Rattle.least_key.specs.Certain.{CertainIsNotRefused, KeyedIsCertain};
ghost use Rattle.least_key.specs.Laws.{OneNet, OneRefusal, PlacedIsNotRefused};

/// No refusal is true of a certain graph but running out of memory.
#[tactic(auto, using(crate::proofs::OneAnswer::certain_is_not_refused))]
pub fn certain_is_not_refused()
    ensures theorem { CertainIsNotRefused }
{}

/// A graph that has got its key is certain.
pub fn keyed_is_certain()
    ensures theorem { KeyedIsCertain }
{}

/// No refusal of placing is true of a graph that is placed but running out of memory.
#[tactic(auto, using(crate::proofs::OneAnswer::placed_is_not_refused))]
pub fn placed_is_not_refused()
    ensures theorem { PlacedIsNotRefused }
{}

/// Two refusals that are true of a graph are one, running out of memory aside. So of several causes
/// the first is reported.
#[tactic(auto, using(crate::proofs::OneAnswer::one_refusal))]
pub fn one_refusal()
    ensures theorem { OneRefusal }
{}

/// The placement, the primitive graph, its basis and the key of a graph are one.
pub fn one_net()
    ensures theorem { OneNet }
{}
