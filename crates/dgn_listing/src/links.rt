// What `links N` says: a line for each linkage of the element, and how many there are.

ghost use Rattle.std.specs.Prelude.{◌≡◌, ◌+◌, ◌≤◌, ◌<◌, ◌^◌, length, IfSome};
ghost use Rattle.dgn_linkage.specs.Linkages.{linkages_of};
ghost use Rattle.dgn_drawing.specs.Faults.{HasNoFault};
ghost use Rattle.dgn_listing.specs.Lines.{Appends};
ghost use Rattle.dgn_listing.specs.LinkTexts.{form_text, link_text, linkages_text, data_start_in, links_text_in};

use crate::pieces::{put, put_ending, put_fields};
use dgn_layout::is_silent;
use dgn_linkage::links;
use dgn_linkage::types::{Form, Link};
use elem_head::{attr_start, head};
use std::alloc::{AllocError, Global};

/// Appends what `links` says of the sound element `b`: a line for each linkage of its attribute data, and
/// `links K` with how many there are. An element of class silent, or without attribute data, has none.
///
/// A line is the linkage's place, counted from the element's first byte, its length, and `dmrs`, `user` or
/// `rest`. Where there is no memory, `out` has grown by a front of that text.
pub fn write_links(alloc: Global, out: &mut Vec<u8>, b: &[u8]) -> Result<(), AllocError>
    requires { HasNoFault b.now }
    ensures { Appends result (links_text_in b.now) out.old.items out.new.items }
{
    match data_start(b) {
        Some(start) => put_links(out, start, b.split_at(start).1),
        None => put_ending(out, b"links", 0),
    }
}

// The byte at which the attribute data of a sound element begin, if there are any.
fn data_start(b: &[u8]) -> Option<usize>
    requires { HasNoFault b.now }
    ensures start { result ≡ data_start_in b.now }
    ensures within { IfSome result (λ at. at ≤ length b.now) }
{
    if is_silent(head(b).kind) {
        None
    } else {
        attr_start(b)
    }
}

// Appends the lines of the linkages of attribute data, which begin at byte `start` of the element, and how many
// there are.
fn put_links(out: &mut Vec<u8>, start: usize, attributes: &[u8]) -> Result<(), AllocError>
    requires { start + length attributes.now < 2 ^ 63 }
    ensures { Appends result (linkages_text start (linkages_of attributes.now)) out.old.items out.new.items }
{
    let mut count = 0;
    'links: for link in links(attributes) {
        put_link(out, start, link)?;
        count += 1;
    }
    put_ending(out, b"links", count)
}

// Appends the line of a linkage.
fn put_link(out: &mut Vec<u8>, start: usize, link: Link) -> Result<(), AllocError>
    requires { start + link.at < 2 ^ 63 }
    ensures { Appends result (link_text start link) out.old.items out.new.items }
{
    put_fields(out, &[(start + link.at) as u64, link.len as u64])?;
    put_form(out, link.form)?;
    put(out, b"\n")
}

// Appends the word for what a linkage is.
fn put_form(out: &mut Vec<u8>, form: Form) -> Result<(), AllocError>
    ensures { Appends result (form_text form) out.old.items out.new.items }
{
    match form {
        Form::Dmrs => put(out, b"dmrs"),
        Form::User => put(out, b"user"),
        Form::Rest => put(out, b"rest"),
    }
}
