// Laws of the definitions.
ghost use Rattle.nodes.specs.Numbers.{GoneObjectsStayGone, NumbersAreGivenOnce};

/// No number is given twice, whatever calls are made. Proved in `proofs/Numbers.antt`.
pub fn numbers_are_given_once()
    ensures { NumbersAreGivenOnce }
{}

/// A node of an object that is gone stands for no other, whatever calls are made. Proved in
/// `proofs/Gone.antt`.
pub fn gone_objects_stay_gone()
    ensures { GoneObjectsStayGone }
{}
