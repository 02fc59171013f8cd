// The nesting follows what an edit appends, block by block: no more rows are kept than those of a block.

ghost use Rattle.std.specs.Prelude.{◌≡◌, ◌≤◌, [], ◌∷◌, ◌++◌, length, IfOk, OnOk, OnErr};
ghost use Rattle.dgn_session.specs.CarryingOut.{IsSpelling, IsBlock, ExtendsRows, Grows};

use dgn_drawing::{MOST_DESIGN, Row, row_of};
use elem_head::head;
use nest_tree::types::Nest;
use std::alloc::{AllocError, Global};

// How many bytes say the size of an element.
const HEAD_END: usize = 4;

// How many rows a block has at the least, if there are so many.
const BLOCK: usize = 4096;

// Grows the nesting by the elements that the bytes spell, and says how many these are. Where there is no memory, it may
// have grown by some of them.
pub(crate) fn nest_appended(alloc: Global, nest: &mut Nest, bytes: &[u8]) -> Result<u32, AllocError>
    requires spelled { IsSpelling bytes.now }
    requires bytes_bounded { length bytes.now ≤ MOST_DESIGN }
    requires rows_bounded { length nest.old.rows ≤ MOST_DESIGN }
    ensures grown { IfOk result (Grows bytes.now nest.old.rows nest.new.rows) }
    ensures begun { OnErr result (ExtendsRows nest.old.rows nest.new.rows) }
{
    let mut rows = Vec::new(alloc);
    let mut rest = bytes;
    let mut count = 0;
    'blocks: while !rest.is_empty() {
        let size = read_block(rest, &mut rows)?;
        nest.reserve(rows.len() as u32)?;
        nest.grow(&rows);
        count += rows.len() as u32;
        let (_, behind) = rest.split_at(size);
        rest = behind;
    }
    Ok(count)
}

// Puts the rows of the first elements that the bytes spell in place of what the list holds: of 4096 and of those with
// bit C that follow, or of as many as there are. So what is behind them nests apart. The answer is how many bytes they
// have.
fn read_block(bytes: &[u8], rows: &mut Vec<Row>) -> Result<usize, AllocError>
    requires { IsSpelling bytes.now }
    ensures block { IfOk result (IsBlock bytes.now rows.new.items) }
{
    rows.clear();
    let mut at = 0;
    'elements: while at < bytes.len() {
        let (_, rest) = bytes.split_at(at);
        let size = HEAD_END + 2 * usize::from(head(rest).words);
        let (first, _) = rest.split_at(size);
        let row = row_of(first);
        if BLOCK <= rows.len() && !row.cbit {
            return Ok(at);
        }
        push_row(rows, row, rest)?;
        at += size;
    }
    Ok(at)
}

// Adds a row behind the others. `bytes` begin with its element. Where a block goes on beyond its least length, with the
// members of a long tree, room is made once, for twice as many rows as these are: the list is then a piece of memory of
// its own, which the system has back with it, while one that grows step by step leaves each former place behind.
fn push_row(rows: &mut Vec<Row>, row: Row, bytes: &[u8]) -> Result<(), AllocError>
    ensures { OnOk result (rows.new.items ≡ rows.old.items ++ row ∷ []) }
{
    if rows.len() == BLOCK {
        rows.reserve(count_members(bytes).saturating_mul(2))?;
    }
    rows.push(row)?;
    Ok(())
}

// How many elements with bit C the bytes begin with: no more than there are bytes, so that room for them is no more than in
// proportion.
fn count_members(bytes: &[u8]) -> usize
    ensures { result ≤ length bytes.now }
{
    let mut rest = bytes;
    let mut count = 0usize;
    'members: while HEAD_END <= rest.len() {
        let head = head(rest);
        let size = HEAD_END + 2 * usize::from(head.words);
        if !head.cbit || rest.len() < size {
            break;
        }
        let (_, behind) = rest.split_at(size);
        rest = behind;
        count = count.saturating_add(1);
    }
    count
}
