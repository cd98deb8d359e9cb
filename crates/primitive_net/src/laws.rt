// What holds of primitive graphs in memory. Each function carries a theorem.
ghost use Rattle.primitive_net.specs.Laws.{OnePrimitiveFault, OnePrimitiveNet};

/// The primitive graph of a net has one placement and one list of classes, and no fault is then true of it.
pub fn one_primitive_net()
    ensures theorem { OnePrimitiveNet }
{}

/// Two faults that are true of a primitive graph are one, running out of memory aside.
pub fn one_primitive_fault()
    ensures theorem { OnePrimitiveFault }
{}
