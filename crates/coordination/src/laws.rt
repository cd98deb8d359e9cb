// What holds of shells in the net itself.
ghost use Rattle.coordination.specs.Laws.{BareKeepsShells, DefinitionsHaveInstances, EachShellHasASize, OneSequence, OtherShellsRefute, SequencesAreKept, SequencesAreOne, TwoShellsSuffice};

/// The next shell is what is joined to a shell and is neither in it nor in the one before.
pub fn two_shells_suffice()
    ensures theorem { TwoShellsSuffice }
{}

/// The list of the sizes of the shells of a vertex is one.
pub fn one_sequence()
    ensures theorem { OneSequence }
{}

/// Each shell of each vertex of a connected stable net has a size.
pub fn each_shell_has_a_size()
    ensures theorem { EachShellHasASize }
{}

/// The list of the sizes of the classes of a graph is one.
pub fn sequences_are_one()
    ensures theorem { SequencesAreOne }
{}

/// A bijection that joins alike keeps the sizes of shells.
pub fn bare_keeps_shells()
    ensures theorem { BareKeepsShells }
{}

/// A coordination sequence of the one net that no vertex of the other has shows that no bijection
/// between their vertices joins alike.
pub fn other_shells_refute()
    ensures theorem { OtherShellsRefute }
{}

/// The coordination sequences that are listed of a net are among those of each net with its infinite
/// graph.
pub fn sequences_are_kept()
    ensures theorem { SequencesAreKept }
{}

/// The definitions of sizes that are listed and of other sizes have instances.
pub fn definitions_have_instances()
    ensures theorem { DefinitionsHaveInstances }
{}
