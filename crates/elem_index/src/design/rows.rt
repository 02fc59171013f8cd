// The rows of the elements, by what is kept of each. The bytes of an element are read only where its type counts its
// members.

ghost use Rattle.std.specs.Prelude.{◌≡◌, ◌<◌, length, map, slice_get, option_map, Some, IfOk, IfSome};
ghost use Rattle.dgn_drawing.specs.Rows.{row_of};
ghost use Rattle.elem_index.specs.Design.{elements, IsCounted, IsWhole};

use super::Design;
use dgn_drawing::{Row, is_counted};
use group_head::total;
use std::alloc::AllocError;

impl Design {
    /// The row of each element, in file order: what the nesting looks at.
    /// An error says that there was no memory.
    pub fn rows(&self) -> Result<Vec<Row>, AllocError>
        requires { IsWhole self.now }
        ensures { IfOk result (λ rows. rows.items ≡ map row_of (elements self.now)) }
    {
        let count = self.count();
        let mut rows = Vec::with_capacity(*self.kept.allocator(), self.kept.len())?;
        for n in 0..count {
            rows.push(self.row(n))?;
        }
        Ok(rows)
    }

    // The row of element `n`, where there is one.
    fn row(&self, n: u32) -> Row
        requires whole { IsWhole self.now }
        requires known { n < length (elements self.now) }
        ensures { option_map row_of (slice_get (elements self.now) n) ≡ Some result }
    {
        let byte = self.kind_bytes()[n as usize];
        let mut row = Row {
            size: (self.end_of(n) - self.kept[n as usize] as usize) as u32,
            kind: byte % 128,
            cbit: 128 <= byte,
            total: 0,
        };
        if is_counted(row.kind) {
            row.total = self.total(n);
        }
        row
    }

    // The total of element `n`, where there is one that counts its members. It alone is read of the element's bytes.
    fn total(&self, n: u32) -> u16
        requires whole { IsWhole self.now }
        requires known { n < length (elements self.now) }
        requires counted { IfSome (slice_get (elements self.now) n) IsCounted }
        ensures { option_map (λ e. (row_of e).total) (slice_get (elements self.now) n) ≡ Some result }
    {
        let Some(bytes) = self.element(n) else {
            unreachable!()
        };
        match total(bytes) {
            Some(total) => total,
            None => unreachable!(),
        }
    }
}
