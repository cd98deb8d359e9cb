// What a printed text says. Each function carries a theorem.
ghost use Rattle.net_report.specs.Telling.{KeyLinesTell, ReportsTell};
ghost use Rattle.net_report.specs.TellingRows.{IdentifiedLinesTell, NameLinesTell, PlacementLinesTell, PrimitiveLinesTell, SequenceLinesTell};

/// Lines of keys are equal only if the keys are.
pub fn key_lines_tell()
    ensures theorem { KeyLinesTell }
{}

/// The text of a report of `key` is that of one list of outcomes, up to what is not printed of them.
pub fn reports_tell()
    ensures theorem { ReportsTell }
{}

/// Lines of names are those of one list.
pub fn name_lines_tell()
    ensures theorem { NameLinesTell }
{}

/// Lines of a placement are those of one placement.
pub fn placement_lines_tell()
    ensures theorem { PlacementLinesTell }
{}

/// Lines of a primitive graph are those of one basis and of one list of edges.
pub fn primitive_lines_tell()
    ensures theorem { PrimitiveLinesTell }
{}

/// Lines of coordination sequences are those of one list.
pub fn sequence_lines_tell()
    ensures theorem { SequenceLinesTell }
{}

/// The lines of a net that is identified are those of one placement, primitive graph, key, list of
/// coordination sequences and list of names.
pub fn identified_lines_tell()
    ensures theorem { IdentifiedLinesTell }
{}
