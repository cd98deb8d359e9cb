// What holds of the answers of runs. The function carries a theorem.
ghost use Rattle.net_tool.specs.Laws.{OneAnswer};

/// Two answers that are due to the same arguments, over files whose bytes the shelf shows, have one
/// status and one text.
pub fn one_answer()
    ensures theorem { OneAnswer }
{}
