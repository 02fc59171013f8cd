ghost use Rattle.std.specs.Prelude.{◌≡◌, IfOk};
ghost use Rattle.edit_script.specs.Words.{words_of, each_named};
ghost use Rattle.edit_script.specs.Fences.{corner_named, fence_command, mode_named, select_command, fmove_command, fcopy_command, fsym_command};
ghost use Rattle.edit_script.specs.Fences.{fdelete_command};

use crate::edits::{read_look, read_shift};
use crate::points::point;
use crate::words::next_word;
use dgn_drawing::{Command, FenceEdit, Mode};
use plane_geom::{Pt, PtList};
use std::alloc::{AllocError, Global};

// The command of `fence` with these bytes behind it: the corners, of which there is one at least.
pub fn read_fence(alloc: Global, rest: &[u8]) -> Result<Option<Command>, AllocError>
    ensures { IfOk result (λ command. command ≡ fence_command (words_of rest.now)) }
{
    if next_word(rest).is_none() {
        return Ok(None);
    }
    let corners = read_corners(alloc, rest)?;
    Ok(corners.map(Command::Fence))
}

// The corners of all words.
fn read_corners(alloc: Global, words: &[u8]) -> Result<Option<PtList>, AllocError>
    ensures { IfOk result (λ corners. corners ≡ each_named corner_named (words_of words.now)) }
{
    let mut corners = PtList::new(alloc);
    let mut left = words;
    'words: while let Some((word, behind)) = next_word(left) {
        let Some(at) = corner(word) else {
            return Ok(None);
        };
        corners.push(at)?;
        left = behind;
    }
    Ok(Some(corners))
}

// The corner that a word spells: a point that is given for two axes.
fn corner(word: &[u8]) -> Option<Pt>
    ensures { result ≡ corner_named word.now }
{
    let given = point(word)?;
    if given.axes == 2 {
        Some(Pt {
            x: given.at[0],
            y: given.at[1],
        })
    } else {
        None
    }
}

// How a fence chooses, by a word.
fn mode_of(word: &[u8]) -> Option<Mode>
    ensures { result ≡ mode_named word.now }
{
    if word == b"inside".as_slice() {
        Some(Mode::Inside)
    } else if word == b"overlap".as_slice() {
        Some(Mode::Overlap)
    } else if word == b"void".as_slice() {
        Some(Mode::Void)
    } else {
        None
    }
}

// The command of `select` with these bytes behind it: how the fence chooses.
pub fn read_select(rest: &[u8]) -> Option<Command>
    ensures { result ≡ select_command (words_of rest.now) }
{
    let (mode, behind) = next_word(rest)?;
    if next_word(behind).is_some() {
        return None;
    }
    let mode = mode_of(mode)?;
    Some(Command::Select(mode))
}

// The command of `fmove` with these bytes behind it: how the fence chooses, and a displacement.
pub fn read_fmove(rest: &[u8]) -> Option<Command>
    ensures { result ≡ fmove_command (words_of rest.now) }
{
    let (mode, behind) = next_word(rest)?;
    let mode = mode_of(mode)?;
    let by = read_shift(behind)?;
    Some(Command::Fenced(mode, FenceEdit::Move(by)))
}

// The command of `fcopy` with these bytes behind it: how the fence chooses, and a displacement.
pub fn read_fcopy(rest: &[u8]) -> Option<Command>
    ensures { result ≡ fcopy_command (words_of rest.now) }
{
    let (mode, behind) = next_word(rest)?;
    let mode = mode_of(mode)?;
    let by = read_shift(behind)?;
    Some(Command::Fenced(mode, FenceEdit::Copy(by)))
}

// The command of `fsym` with these bytes behind it: how the fence chooses, and a look.
pub fn read_fsym(rest: &[u8]) -> Option<Command>
    ensures { result ≡ fsym_command (words_of rest.now) }
{
    let (mode, behind) = next_word(rest)?;
    let mode = mode_of(mode)?;
    let change = read_look(behind)?;
    Some(Command::Fenced(mode, FenceEdit::Sym(change)))
}

// The command of `fdelete` with these bytes behind it: how the fence chooses.
pub fn read_fdelete(rest: &[u8]) -> Option<Command>
    ensures { result ≡ fdelete_command (words_of rest.now) }
{
    let (mode, behind) = next_word(rest)?;
    if next_word(behind).is_some() {
        return None;
    }
    let mode = mode_of(mode)?;
    Some(Command::Fenced(mode, FenceEdit::Delete))
}
