//! Elements of worked drawings, as bytes, and drawings of them: what the tests of the other crates open, edit and list.
//!
//! Each element is one constant, whose name and comment say what it holds. `with_byte` and `with_word` make another one of
//! it, and `drawing` puts a TCB before some of them. The program uses nothing of this crate.
#![tactic(auto)]

mod chains;
mod changing;
mod headers;
mod lines;
mod making;
mod others;

pub use chains::{
    CHAIN, CHAIN_OF_THREE, LINKED_SHAPE, NEW_CHAIN, SHAPE_PART, SPACE_CHAIN, SPACE_CHAIN_OF_THREE,
};
pub use changing::{blank, with_byte, with_word};
pub use headers::{
    CELL, CELL_OF_52, CELL_OF_81, CHAIN_HEADER, MOVED_CELL, NODE, SHAPE_HEADER, SHARED_CELL,
    SMALL_HEADER, SPLINE, SPLINE_PART,
};
pub use lines::{
    ATTRIBUTED_LINE, DASHED_LINE, DELETED_LINE, FIRST_LINE, FREED_COPY, LAST_LINE, LINE,
    LINE_WITH_ATTRIBUTES, LINKED_LINE, LOCKED_MEMBER, MEMBER, MEMBER_ON_2, MOVED_LOCKED_MEMBER,
    NEW_LINE, RESERVED_LINE, SHORT_LINE, SHORT_MEMBER, SPACE_LINE,
};
pub use making::drawing;
pub use others::{
    ARC, DATA, DELETED_REFERENCE, DRAWN_ARC, END, FIRST_STRING, NEARLY_END, NO_REFERENCES,
    REFERENCE, SECOND_STRING, SILENT, TEXT,
};
