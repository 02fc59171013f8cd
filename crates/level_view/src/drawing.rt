ghost use Rattle.std.specs.Prelude.{◌≡◌, ◌≤◌, ◌↔◌, map, length, option_map, slice_get, IsNone, IfSome};
ghost use Rattle.dgn_drawing.specs.Numbering.{knot_of, parent_of, depth_of, span_of, root_of, first_broken_of};
ghost use Rattle.dgn_drawing.specs.Rows.{row_of};
ghost use Rattle.dgn_drawing.specs.Spelling.{spell};
ghost use Rattle.dgn_drawing.specs.WellFormed.{IsDimension};
ghost use Rattle.elem_index.specs.Design.{elements, IsWhole};
ghost use Rattle.elem_index.specs.Offsets.{offset_of};
ghost use Rattle.nest_tree.specs.Shapes.{code_knot};

use elem_index::Design;
use nest_tree::Knot;
use nest_tree::types::Nest;
use std::marker::Model;

/// A design that is open, with its nesting: what every call asks that reads a drawing by its elements.
///
/// A contract sees the design. Elements are numbered in file order, from 0.
#[derive(Drop)]
pub struct Drawing<'a> {
    // The design.
    design: &'a Design,
    // The trees of its elements.
    nest: &'a Nest,
}

impl<'a> Model for Drawing<'a> {
    ghost use Rattle.std.specs.Prelude.{◌≡◌, map};
    ghost use Rattle.dgn_drawing.specs.Rows.{row_of};
    ghost use Rattle.elem_index.specs.declared.design.Design.{Design};
    ghost use Rattle.elem_index.specs.Design.{elements, IsWhole};

    ghost Value = { Design };

    ghost view = { λ d. d.design.now };

    ghost invariant = { λ d. IsWhole d.design.now × (d.nest.now.rows ≡ map row_of (elements d.design.now)) };
}

impl<'a> Drawing<'a> {
    /// The design with its nesting.
    pub fn new(design: &'a Design, nest: &'a Nest) -> Drawing<'a>
        requires whole { IsWhole design.now }
        requires nesting { nest.now.rows ≡ map row_of (elements design.now) }
        ensures { result ≡ design.now }
    {
        Drawing { design, nest }
    }

    /// The design is such as the type keeps. It does nothing.
    pub fn is_whole(&self)
        ensures { IsWhole self.now }
    {
        let _design = self.design;
    }

    /// The dimension, 2 or 3.
    pub fn dim(&self) -> u8
        ensures value { result ≡ self.now.dim }
        ensures dimension { IsDimension result }
    {
        self.design.dim
    }

    /// The bytes of the elements, one behind the other.
    pub fn body(&self) -> &'a [u8]
        ensures { result.now ≡ self.now.body.items }
    {
        &self.design.body
    }

    /// The bytes behind the elements: none, or such as begin with FF FF.
    pub fn tail(&self) -> &'a [u8]
        ensures { result.now ≡ self.now.tail.items }
    {
        &self.design.tail
    }

    /// The number of elements.
    pub fn count(&self) -> u32
        ensures { result ≡ length (elements self.now) }
    {
        self.design.count()
    }

    /// The bytes of element `n`. None exactly where there are no more than `n` elements.
    pub fn element(&self, n: u32) -> Option<&'a [u8]>
        ensures none { IsNone result ↔ (length (elements self.now) ≤ n) }
        ensures bytes { option_map (λ b. b.now) result ≡ option_map spell (slice_get (elements self.now) n) }
    {
        self.design.element(n)
    }

    /// The byte of the body at which element `n` begins. None exactly where there are no more than `n` elements.
    pub fn offset(&self, n: u32) -> Option<usize>
        ensures none { IsNone result ↔ (length (elements self.now) ≤ n) }
        ensures place { IfSome result (λ at. at ≡ offset_of (elements self.now) n) }
    {
        self.design.offset(n)
    }

    /// What element `n` is in its tree. None exactly where there are no more than `n` elements.
    pub fn knot(&self, n: u32) -> Option<Knot>
        ensures none { IsNone result ↔ (length (elements self.now) ≤ n) }
        ensures knot { result ≡ option_map code_knot (knot_of row_of (elements self.now) n) }
    {
        self.nest.knot(n)
    }

    /// The number of the header that element `n` stands below; None within for a root. None exactly where there are no
    /// more than `n` elements.
    pub fn parent(&self, n: u32) -> Option<Option<u32>>
        ensures none { IsNone result ↔ (length (elements self.now) ≤ n) }
        ensures parent { result ≡ parent_of row_of (elements self.now) n }
    {
        self.nest.parent(n)
    }

    /// How many headers lie above element `n`: at most 3278. None exactly where there are no more than `n` elements.
    pub fn depth(&self, n: u32) -> Option<u32>
        ensures none { IsNone result ↔ (length (elements self.now) ≤ n) }
        ensures depth { result ≡ depth_of row_of (elements self.now) n }
        ensures low { IfSome result (λ d. d ≤ 3278) }
    {
        self.nest.depth(n)
    }

    /// The number of element `n`, and the number behind the last element below it. None exactly where there are no more
    /// than `n` elements.
    pub fn span(&self, n: u32) -> Option<(u32, u32)>
        ensures none { IsNone result ↔ (length (elements self.now) ≤ n) }
        ensures span { result ≡ span_of row_of (elements self.now) n }
    {
        self.nest.span(n)
    }

    /// The root of the tree that holds element `n`. None exactly where there are no more than `n` elements.
    pub fn root(&self, n: u32) -> Option<u32>
        ensures none { IsNone result ↔ (length (elements self.now) ≤ n) }
        ensures root { result ≡ root_of row_of (elements self.now) n }
    {
        self.nest.root(n)
    }

    /// The least broken number in the span of element `n`, where there is one. Broken are the loose headers and the
    /// roots other than element 0 that have bit C. None exactly where there are no more than `n` elements.
    pub fn first_broken(&self, n: u32) -> Option<Option<u32>>
        ensures none { IsNone result ↔ (length (elements self.now) ≤ n) }
        ensures first { result ≡ first_broken_of row_of (elements self.now) n }
    {
        self.nest.first_broken(n)
    }
}
