// The linkages of some data, one after the other.

ghost use Rattle.std.specs.Prelude.{◌≡◌, ◌≤◌, length};
ghost use Rattle.std.specs.Iterator.{YieldsFirst, item_count};

use crate::first::first_link;
use crate::types::link::Link;

/// The linkages of some attribute data that are still to come. A contract sees them as the list
/// `links_left`.
#[derive(Debug, Drop)]
pub struct Links<'a> {
    // The whole data.
    bytes: &'a [u8],
    // Where the next linkage stands.
    at: usize,
    ghost within: { at ≤ length bytes.now },
}

impl<'a> Links<'a> {
    ghost use Rattle.dgn_linkage.specs.Linkages.{linkages_of};
    ghost use Rattle.dgn_linkage.specs.Links.{links_left};

    // All linkages of the data `bytes`.
    pub(crate) fn new(bytes: &'a [u8]) -> Self
        ensures { links_left result ≡ linkages_of bytes.now }
    {
        Links { bytes, at: 0 }
    }
}

impl Iterator for Links<'_> {
    ghost use Rattle.dgn_linkage.specs.Links.{links_left};

    type Item = Link;

    ghost next_gives = { YieldsFirst links_left };

    ghost remaining = { item_count links_left };

    fn next(&mut self) -> Option<Link> {
        let rest = &self.bytes[self.at..];
        if rest.is_empty() {
            return None;
        }
        let link = first_link(self.at, rest);
        self.at += link.len;
        Some(link)
    }
}
