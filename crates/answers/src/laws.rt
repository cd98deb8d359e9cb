// What holds of answers. Each function carries a theorem.
ghost use Rattle.answers.specs.Laws.{BlocksOfWorkload, FewEndings, OneDueAnswer, SomeAnswerIsDue, UnionEndings};

/// Two answers that are due to a task, of the same bytes of its file and of its archive, have one
/// status and one text.
#[tactic(auto, using(crate::proofs::OneAnswer::one_due_answer))]
pub fn one_due_answer()
    ensures theorem { OneDueAnswer }
{}

/// If the bytes of its files are within their limits, and the archive is one, a task to which an
/// answer is due ends in few ways.
#[tactic(auto, using(crate::proofs::Endings::few_endings))]
pub fn few_endings()
    ensures theorem { FewEndings }
{}

/// Of a union whose bytes are within their limits it is the file that is a bad archive, and the file
/// in which too many items begin.
#[tactic(auto, using(crate::proofs::Endings::union_endings))]
pub fn union_endings()
    ensures theorem { UnionEndings }
{}

/// An answer is due if too many blocks or items begin, and if an archive is migrated: there no
/// net has to be computed.
#[tactic(auto, using(crate::proofs::OneAnswer::some_answer_is_due))]
pub fn some_answer_is_due()
    ensures theorem { SomeAnswerIsDue }
{}

/// A workload has one block for each of its nets.
#[tactic(auto, using(crate::proofs::MadeBlocks::made_blocks))]
pub fn blocks_of_workload()
    ensures theorem { BlocksOfWorkload }
{}
