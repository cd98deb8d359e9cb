// What holds of answers to `same`. Each function carries a theorem.
ghost use Rattle.map_answers.specs.Laws.{OneSameness, SameIsVerified};
ghost use Rattle.map_answers.specs.VerifyingLaws.{OneVerification};

/// Two answers that are due to the same bytes have one status and one text.
#[tactic(auto, using(crate::proofs::Verified::one_verification))]
pub fn one_verification()
    ensures theorem { OneVerification }
{}

/// Of blocks one answer is due: one status and one text.
#[tactic(auto, using(crate::proofs::Sameness::one_sameness))]
pub fn one_sameness()
    ensures theorem { OneSameness }
{}

/// Each map that is printed is verified.
pub fn same_is_verified()
    ensures theorem { SameIsVerified }
{}
