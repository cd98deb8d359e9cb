// What holds of the texts of archives. Each function carries a theorem.
ghost use Rattle.net_archive.specs.Laws.{ArchivesHaveNoFault, OneAddFault, OneArchive, OneFault};

/// The text of an archive has no fault: it can only run out of memory.
pub fn archives_have_no_fault()
    ensures theorem { ArchivesHaveNoFault }
{}

/// A text is that of one archive alone.
#[tactic(auto, using(crate::proofs::OneFault::one_archive))]
pub fn one_archive()
    ensures theorem { OneArchive }
{}

/// The first fault of a text is one, running out of memory aside.
pub fn one_fault()
    ensures theorem { OneFault }
{}

/// The fault of adding under a name is one, running out of memory aside.
#[tactic(auto, using(crate::proofs::NewEntry::one_add_fault))]
pub fn one_add_fault()
    ensures theorem { OneAddFault }
{}
