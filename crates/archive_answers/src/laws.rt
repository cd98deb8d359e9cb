// What holds of what is due to a union. Each function carries a theorem.
ghost use Rattle.archive_answers.specs.ItemLaws.{OneItemReport};
ghost use Rattle.archive_answers.specs.Laws.{ManyItemsAreNotAnswered, OneUnionDue};

/// The report on items is one: of each item there is one text.
pub fn one_item_report()
    ensures theorem { OneItemReport }
{}

/// Two answers that are due to a union, of the same bytes of its file and of its archive, have one
/// status and one text.
pub fn one_union_due()
    ensures theorem { OneUnionDue }
{}

/// If too many items begin, no answer is due.
#[tactic(auto, using(crate::proofs::Unions::many_items))]
pub fn many_items()
    ensures theorem { ManyItemsAreNotAnswered }
{}
