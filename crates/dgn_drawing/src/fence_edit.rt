use crate::shift::Shift;
use crate::symb_change::SymbChange;

/// A change of all trees that a fence chooses, which one command asks for.
#[derive(Drop)]
pub enum FenceEdit {
    /// Moves each tree by this displacement.
    Move(Shift),
    /// Appends a copy of each tree, moved by this displacement.
    Copy(Shift),
    /// Gives each tree this look.
    Sym(SymbChange),
    /// Marks each tree deleted.
    Delete,
}
