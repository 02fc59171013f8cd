ghost use Rattle.std.specs.Prelude.{◌≡◌, IfOk};
ghost use Rattle.edit_script.specs.Words.{words_of};
ghost use Rattle.edit_script.specs.Grammar.{command_of, command_named, alone};

use crate::appends;
use crate::command_name::CommandName;
use crate::edits::{one_element, read_color, read_copy, read_delete, read_move, read_sym};
use crate::fences::{read_fcopy, read_fdelete, read_fence, read_fmove, read_fsym, read_select};
use crate::imports::read_import;
use crate::levels::read_levels;
use crate::reading::Reading;
use crate::words::{first_piece, next_word, strip_blanks};
use dgn_drawing::Command;
use std::alloc::{AllocError, Global};

// What a line says.
pub fn read_line(alloc: Global, line: &[u8]) -> Result<Reading, AllocError>
    ensures { IfOk result (λ reading. reading ≡ command_of line.now) }
{
    let line = strip_blanks(line);
    if line.is_empty() || line[0] == b'#' {
        return Ok(Reading::Nothing);
    }
    let (word, rest) = first_piece(line, b' ');
    let Some(name) = CommandName::of(word) else {
        return Ok(Reading::Bad);
    };
    let command = read_command(alloc, name, rest)?;
    Ok(Reading::asking(command))
}

// The command of this name with these bytes behind it.
fn read_command(
    alloc: Global,
    name: CommandName,
    rest: &[u8],
) -> Result<Option<Command>, AllocError>
    ensures { IfOk result (λ command. command ≡ command_named name rest.now) }
{
    match name {
        CommandName::Line => appends::read_line(alloc, rest),
        CommandName::String => appends::read_string(alloc, rest),
        CommandName::Shape => appends::read_shape(alloc, rest),
        CommandName::Text => appends::read_text(alloc, rest),
        CommandName::Fence => read_fence(alloc, rest),
        CommandName::Import => read_import(alloc, rest),
        CommandName::Color => Ok(read_color(rest)),
        CommandName::Move => Ok(read_move(rest)),
        CommandName::Copy => Ok(read_copy(rest)),
        CommandName::Sym => Ok(read_sym(rest)),
        CommandName::Delete => Ok(read_delete(rest)),
        CommandName::Undo => Ok(alone(Command::Undo, rest)),
        CommandName::Levels => Ok(read_levels(rest).map(Command::Levels)),
        CommandName::Show => Ok(alone(Command::Show, rest)),
        CommandName::Tree => Ok(one_element(rest).map(Command::Tree)),
        CommandName::Elements => Ok(alone(Command::Elements, rest)),
        CommandName::Refs => Ok(alone(Command::Refs, rest)),
        CommandName::Links => Ok(one_element(rest).map(Command::Links)),
        CommandName::Select => Ok(read_select(rest)),
        CommandName::NoFence => Ok(alone(Command::NoFence, rest)),
        CommandName::FenceMove => Ok(read_fmove(rest)),
        CommandName::FenceCopy => Ok(read_fcopy(rest)),
        CommandName::FenceSym => Ok(read_fsym(rest)),
        CommandName::FenceDelete => Ok(read_fdelete(rest)),
        CommandName::Audit => Ok(alone(Command::Audit, rest)),
        CommandName::Fit => Ok(one_element(rest).map(Command::Fit)),
    }
}

// A command behind whose name no word stands.
fn alone(command: Command, rest: &[u8]) -> Option<Command>
    ensures { result ≡ alone command (words_of rest.now) }
{
    match next_word(rest) {
        None => Some(command),
        Some(_) => None,
    }
}
