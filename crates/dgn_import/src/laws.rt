//! What holds of all imports. Each call does nothing; its contract is the law.

ghost use Rattle.dgn_import.specs.Laws.{GatheredTreesNestApart, TreesAloneRefuse};

/// Gathered trees nest apart: what is gathered from a file spells well formed elements of the dimension, of which the
/// first, if there is one, has no bit C; and behind any drawing these nest as the gathered trees, so that the trees of
/// all are those of the drawing and then these.
pub fn gathered_trees_nest_apart()
    ensures { GatheredTreesNestApart }
{}

/// Trees alone refuse: an import from a drawing that opens is refused with Floating, Opaque or OffPlane, and with no other
/// cause.
pub fn trees_alone_refuse()
    ensures { TreesAloneRefuse }
{}
