// What holds of reports. The function carries a theorem.
ghost use Rattle.block_answers.specs.ComponentLaws.{OneTelling};
ghost use Rattle.block_answers.specs.Laws.{EqualReportsTell, KeyLinesDecide, OneReport, PartsTell, RefusalsTell, ReportsAreLegible};

/// What is reported of the components of a net is one.
pub fn one_telling()
    ensures theorem { OneTelling }
{}

/// The report on blocks is one: of each block there is one text.
pub fn one_report()
    ensures theorem { OneReport }
{}

/// A net that is refused as disconnected, degenerate, colliding or past the key work is that of no
/// net with a key.
pub fn refusals_tell()
    ensures theorem { RefusalsTell }
{}

/// The keys of parts decide whether their nets are isomorphic.
pub fn parts_tell()
    ensures theorem { PartsTell }
{}

/// Printed lines of keys are equal if and only if the nets are isomorphic.
pub fn key_lines_decide()
    ensures theorem { KeyLinesDecide }
{}

/// What `key` reports on the blocks of a text is legible.
pub fn reports_are_legible()
    ensures theorem { ReportsAreLegible }
{}

/// Equal reports of `key` have isomorphic nets at each place.
pub fn equal_reports_tell()
    ensures theorem { EqualReportsTell }
{}
