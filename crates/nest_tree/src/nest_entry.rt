ghost use Rattle.std.specs.Prelude.{◌≡◌, ◌<◌, IfSome};

use crate::knot::Knot;
use std::marker::Model;

// What stands for the header of a root: no element has that number.
const NONE: u32 = 4294967295;

// What is kept of an element beside the number behind its span.
#[derive(Clone, Copy, Drop)]
pub(crate) struct NestEntry {
    // The number of the header that it stands below, or `NONE`.
    parent: u32,
    // How many headers lie above it.
    depth: u16,
    // What it is.
    knot: Knot,
}

impl Model for NestEntry {
    ghost use Rattle.std.proofs.Common.{ap};
    ghost use Rattle.nest_tree.specs.NestEntries.{NestEntry as NestEntries, header_of, number_of, number_kept};

    ghost Value = { NestEntries };

    ghost view = { λ s. record { parent = header_of s.parent; depth = s.depth; knot = s.knot } };

    ghost inverse = { λ t. record { parent = number_of t.parent; depth = t.depth; knot = t.knot } };

    ghost inverse_ok = { λ a h. ap (λ n. record a { parent = n }) (number_kept a.parent) };
}

impl NestEntry {
    // What is kept of an element with that header, in that depth. No element lies deeper than a word says.
    pub(crate) fn new(parent: Option<u32>, depth: u32, knot: Knot) -> NestEntry
        requires above { IfSome parent (λ p. p < 4294967295) }
        requires near { depth < 65536 }
        ensures { result ≡ record { parent = parent; depth = depth; knot = knot } }
    {
        NestEntry {
            parent: parent.unwrap_or(NONE),
            depth: depth as u16,
            knot,
        }
    }

    // The number of the header that it stands below.
    pub(crate) fn parent(self) -> Option<u32>
        ensures { result ≡ self.parent }
    {
        if self.parent == NONE {
            None
        } else {
            Some(self.parent)
        }
    }

    // How many headers lie above it.
    pub(crate) fn depth(self) -> u32
        ensures { result ≡ self.depth }
    {
        u32::from(self.depth)
    }

    // What it is.
    pub(crate) fn knot(self) -> Knot
        ensures { result ≡ self.knot }
    {
        self.knot
    }
}
