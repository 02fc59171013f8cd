use crate::new_element::New;
use crate::shift::Shift;
use crate::symb_change::SymbChange;

/// A change of the drawing that one command asks for. Elements are numbered in file order, from 0. The part of
/// an element is the element and all that stands below it.
#[derive(Drop)]
pub enum Edit {
    /// Moves the part of element `n` by this displacement, and widens the ranges of the headers above it.
    Move { n: u32, by: Shift },
    /// Appends a copy of the part of element `n`, moved by this displacement.
    Copy { n: u32, by: Shift },
    /// Gives the part of element `n` this look.
    Sym { n: u32, change: SymbChange },
    /// Marks the part of element `n` deleted.
    Delete { n: u32 },
    /// Appends this element.
    Append(New),
}
