use crate::edit::Edit;
use crate::fence_edit::FenceEdit;
use crate::mask::Mask;
use crate::mode::Mode;
use crate::shift::Shift;
use patch_bytes::ByteList;
use plane_geom::PtList;

/// What one line of a script asks for. Elements are numbered in file order, from 0.
#[derive(Drop)]
pub enum Command {
    /// A change of the drawing.
    Edit(Edit),
    /// A change of all trees that the fence chooses so.
    Fenced(Mode, FenceEdit),
    /// Takes back the last edit that was made and isn't taken back yet.
    Undo,
    /// Sets which levels are shown.
    Levels(Mask),
    /// Sets the fence to the polygon with these corners. Whether they are as many as a fence may have isn't
    /// asked here.
    Fence(PtList),
    /// Clears the fence.
    NoFence,
    /// Says the items that are shown.
    Show,
    /// Says the elements of the tree of this one, it and all below it.
    Tree(u32),
    /// Says all elements, and how many there are of each level and each type.
    Elements,
    /// Says the elements that may attach a reference file.
    Refs,
    /// Says the linkages of this element.
    Links(u32),
    /// Says the numbers of the trees that the fence chooses so.
    Select(Mode),
    /// Appends the trees of the drawing in the file of this name, displaced so far where that is given.
    Import(ByteList, Option<Shift>),
    /// Says the elements whose stored range isn't the hull of their parts.
    Audit,
    /// Writes the hulls of the tree that holds this element.
    Fit(u32),
}
