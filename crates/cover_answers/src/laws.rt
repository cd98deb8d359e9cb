// What holds of answers to `cover`. The function carries a theorem.
ghost use Rattle.cover_answers.specs.Laws.{OneCovering};

/// Of a cell and of blocks one answer is due: one status and one text.
#[tactic(auto, using(crate::proofs::OneCovering::one_covering))]
pub fn one_covering()
    ensures theorem { OneCovering }
{}
