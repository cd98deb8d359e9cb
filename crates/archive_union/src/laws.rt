// The theorems on unions, as clauses: a union has all, and there is one.
ghost use Rattle.archive_union.specs.Laws.{OneUnion, UnionsHaveAll};

/// A union has exactly the names of the archive and of the items, each once with a graph of its
/// own. Its groups are of isomorphic nets, and each of its nets is found under each of its names.
#[tactic(auto, using(crate::proofs::Unions::has_all))]
pub fn unions_have_all()
    ensures theorem { UnionsHaveAll }
{}

/// An archive and items have one union, or else one item is refused for one reason.
pub fn one_union()
    ensures theorem { OneUnion }
{}
