//! Generated drawings: cells, lines, chains, shapes and texts at points that are drawn from a seed.
#![tactic(auto)]

ghost use Rattle.std.specs.Prelude.{◌≡◌, ◌≤◌, ◌^◌, ◌<◌, ◌++◌, IfOk, OnOk};
ghost use Rattle.dgn_drawing.specs.Spelling.{spell, spelling};
ghost use Rattle.dgn_generator.specs.Generator.{next_state, trees_within, blank_tcb, generated};

mod fields;
pub mod laws;
mod place;
mod rests;
mod trees;

use place::Place;
use std::alloc::{AllocError, Global};
use trees::push_tree;

// The most bytes that a tree has for each of its elements.
const MOST: usize = 70;

// How many bytes the TCB has.
const TCB_SIZE: usize = 1536;

/// The bytes of a drawing of the plane with `count` elements behind its TCB.
///
/// The elements are cells, lines, chains, shapes and texts in turn, each at a point that is drawn, so the drawing hangs
/// on `seed` and `count` alone. An error says that there was no memory.
pub fn generate(alloc: Global, seed: u32, count: u32) -> Result<Vec<u8>, AllocError>
    requires positive { 1 ≤ count }
    requires bounded { count ≤ 200000 }
    ensures { IfOk result (λ v. v.items ≡ generated seed count) }
{
    let mut bytes = Vec::with_capacity(alloc, TCB_SIZE + MOST * count as usize + 2)?;
    push_tcb(&mut bytes)?;
    push_trees(&mut bytes, seed, count)?;
    bytes.extend_from_slice(&[0xFF, 0xFF])?;
    Ok(bytes)
}

// Appends the TCB.
fn push_tcb(bytes: &mut Vec<u8>) -> Result<(), AllocError>
    ensures { OnOk result (bytes.new.items ≡ bytes.old.items ++ spell blank_tcb) }
{
    bytes.extend_from_slice(&[0x08, 0x09, 0xFE, 0x02])?;
    bytes.extend_from_slice(&[0; TCB_SIZE - 4])?;
    Ok(())
}

// Appends trees, drawn from the seed on, until there are so many elements.
fn push_trees(bytes: &mut Vec<u8>, seed: u32, count: u32) -> Result<(), AllocError>
    ensures { OnOk result (bytes.new.items ≡ bytes.old.items ++ spelling (trees_within count count 0 seed)) }
{
    let mut state = seed;
    let mut before = 0;
    'trees: while before < count {
        let first = drawn(state);
        let second = drawn(first);
        let place = Place {
            before,
            x: first / 2048,
            y: second / 2048,
        };
        before += push_tree(bytes, count - before, place)?;
        state = second;
    }
    Ok(())
}

// The state that a draw makes of a state.
fn drawn(state: u32) -> u32
    ensures next { result ≡ next_state state }
    ensures small { result < 2 ^ 31 }
{
    ((u64::from(state) * 1103515245 + 12345) % 2147483648) as u32
}
