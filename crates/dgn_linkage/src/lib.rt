//! The linkages of an element: the pieces that its attribute data is made of.
//!
//! Attribute data stands behind the body of an element. It is a row of linkages, each of which says by
//! its first two bytes what it is and how long, as far as that is known. What nothing is known of is
//! one piece up to the end.
#![tactic(auto)]

ghost use Rattle.std.specs.Prelude.{◌≡◌};
ghost use Rattle.dgn_linkage.specs.Linkages.{linkages_of};
ghost use Rattle.dgn_linkage.specs.Links.{links_left};

use types::Links;

mod first;
pub mod laws;
pub mod types;

pub use types::{Form, Link};

/// The linkages of the attribute data `b`, in the order of its bytes. Nothing is copied and nothing
/// allocated. Together they are exactly the bytes of `b`.
///
/// At each place, with some bytes left:
///
/// - where fewer than four are left, they are one Rest;
/// - where the first is 0 and the second 0 or 128, it is a Dmrs of 8 bytes;
/// - where bit 0x10 of the second is set, it is a User, whose first byte counts the words behind the
///   first one;
/// - a Dmrs or User that is longer than what is left, and anything else, is one Rest of all that is left.
pub fn links(b: &[u8]) -> Links<'_>
    ensures { links_left result ≡ linkages_of b.now }
{
    Links::new(b)
}
