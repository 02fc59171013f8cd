//! What holds of every fit. Each call does nothing; its contract is the law.

ghost use Rattle.dgn_audit.specs.Laws.{FittedDrawingsOpen, FitsChangeTheirFields, FitsEndFindings, FindingsAreFitted};

/// A fitted drawing opens: what a fit that is done leaves opens in the same dimension, with the elements that it makes and
/// the same tail.
pub fn a_fitted_drawing_opens()
    ensures { FittedDrawingsOpen }
{}

/// A fit changes its fields alone: each byte in no field of the fitted elements' ranges stays, the length and the rows
/// stay, the trees are the fitted ones, and the fields rise within the elements, so no two share a byte, and in the tree
/// that is fitted; those of each fitted element lie in it.
pub fn a_fit_changes_its_fields_alone()
    ensures { FitsChangeTheirFields }
{}

/// A fit ends findings: after it no element of the tree that it fits is a finding, and the findings of all other trees are
/// as before.
pub fn a_fit_ends_findings()
    ensures { FitsEndFindings }
{}

/// Every finding is fitted in its tree: it is told of, with its hull, among the fitted elements of the tree of its root,
/// whose range spots a fit of that tree writes.
pub fn every_finding_is_fitted()
    ensures { FindingsAreFitted }
{}
