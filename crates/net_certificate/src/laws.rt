// What holds of the answers. Each function carries a theorem.
ghost use Rattle.net_certificate.specs.Laws.{AnswersTellGraphs, FoundMapsPass, OneMapAnswer};
ghost use Rattle.net_certificate.specs.TextLaws.{BadLineIsFirst, TextsTellMaps};

/// A text is that of one list of maps at most, and has one first bad line at most, and never both.
#[tactic(auto, using(crate::proofs::WholeTexts::texts_tell))]
pub fn texts_tell_maps()
    ensures theorem { TextsTellMaps }
{}

/// No text of maps has the same lines up to the first bad one, and the lines before it meet every
/// condition that they alone decide.
#[tactic(auto, using(crate::proofs::WholeTexts::bad_line_is_first))]
pub fn bad_line_is_first()
    ensures theorem { BadLineIsFirst }
{}

/// Two nets have one answer by a room at most.
pub fn one_map_answer()
    ensures theorem { OneMapAnswer }
{}

/// A map that is found passes the check of maps, if it has no more images than are checked.
pub fn found_maps_pass()
    ensures theorem { FoundMapsPass }
{}

/// Two nets are answered to be different if and only if no bijection between their vertices joins
/// images if and only if the vertices are joined.
pub fn answers_tell_graphs()
    ensures theorem { AnswersTellGraphs }
{}
