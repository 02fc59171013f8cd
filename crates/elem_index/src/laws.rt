//! What holds of all files. Each call does nothing; its contract is the law.

ghost use Rattle.elem_index.specs.Laws.{OpensOrHasOneFault, OpeningIsFound, FaultIsFound};

/// Opens or has one fault: each file opens in exactly one way and has no fault, or has exactly one
/// fault and doesn't open.
pub fn opens_or_has_one_fault()
    ensures { OpensOrHasOneFault }
{}

/// The function `opening` gives what a file opens as exactly where it opens, and its fault exactly
/// where it has one.
pub fn opening_finds_all()
    ensures opens { OpeningIsFound }
    ensures faults { FaultIsFound }
{}
