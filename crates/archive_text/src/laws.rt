// The theorems on regrouping, as clauses: what it keeps, and that it is one.
ghost use Rattle.archive_text.specs.Laws.{EntriesAreRegrouped, OneRegrouping};

/// The same entries; those with one key stand together, in their old order, and the groups in the
/// order of their first entries.
pub fn entries_are_regrouped()
    ensures theorem { EntriesAreRegrouped }
{}

/// Only one list is a regrouping of another.
pub fn one_regrouping()
    ensures theorem { OneRegrouping }
{}
