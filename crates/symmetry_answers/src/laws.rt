// What holds of answers to `symmetry`. Each function carries a theorem.
ghost use Rattle.symmetry_answers.specs.Laws.{OneSymmetry, OrbitsCarry, SizesTimesOrders, SymmetriesCarry};

/// All symmetries of the net of a primitive graph are, carried over, all symmetries of the net.
pub fn symmetries_carry()
    ensures theorem { SymmetriesCarry }
{}

/// Its orbits of vertices are, carried over, those of the net.
pub fn orbits_carry()
    ensures theorem { OrbitsCarry }
{}

/// The size of an orbit of vertices, times the order of a stabilizer, is the number of operations.
pub fn sizes_times_orders()
    ensures theorem { SizesTimesOrders }
{}

/// Of blocks one answer is due: one status and one text.
pub fn one_symmetry()
    ensures theorem { OneSymmetry }
{}
