ghost use Rattle.std.specs.Prelude.{◌≡◌, ◌≤◌, vec_len, IfOk};
ghost use Rattle.dgn_import.specs.Seconds.{second_of, value_of, IsOpened, IsTextOf, HasToldFault};

use crate::second_fault::SecondFault;
use dgn_drawing::MOST_DESIGN;
use elem_index::{Design, OpenFault, read_design};
use level_view::nest_design;
use nest_tree::types::Nest;
use std::alloc::{AllocError, Global};

/// A second drawing, which is open, or why its file doesn't open.
///
/// A contract sees its value (`SecondValue`): the dimension with the bytes of the body and of the tail, or the fault.
/// One that `read_second` makes is sound (`IsOpened`): the design is whole, and the nesting is that of its elements.
#[derive(Drop)]
pub enum Second {
    /// The drawing, and the trees of its elements.
    Good(Design, Nest),
    /// The fault of the file.
    Bad(SecondFault),
}

/// Opens the bytes of a second file, and nests its elements.
///
/// Bad comes exactly where they don't open (`elem_index::read_design`), with their fault. Otherwise body and tail are
/// together the bytes. An error says that there was no memory.
pub fn read_second(alloc: Global, bytes: Vec<u8>) -> Result<Second, AllocError>
    requires { vec_len bytes ≤ MOST_DESIGN }
    ensures value { IfOk result (λ s. value_of s ≡ second_of bytes.items) }
    ensures sound { IfOk result IsOpened }
    ensures text { IfOk result (λ s. IsTextOf bytes.items (value_of s)) }
    ensures fault { IfOk result (λ s. HasToldFault bytes.items (value_of s)) }
{
    match read_design(alloc, bytes) {
        Ok(design) => {
            let nest = nest_design(alloc, &design)?;
            Ok(Second::Good(design, nest))
        }
        Err(OpenFault::NotDesign) => Ok(Second::Bad(SecondFault::NotDesign)),
        Err(OpenFault::Cut { at }) => Ok(Second::Bad(SecondFault::Cut { at })),
        Err(OpenFault::Short { at }) => Ok(Second::Bad(SecondFault::Short { at })),
        Err(OpenFault::Attr { at }) => Ok(Second::Bad(SecondFault::Attr { at })),
        Err(OpenFault::Memory) => Err(AllocError),
    }
}
