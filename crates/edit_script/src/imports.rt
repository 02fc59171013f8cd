ghost use Rattle.std.specs.Prelude.{◌≡◌, IfOk};
ghost use Rattle.std.specs.List.{list_all};
ghost use Rattle.edit_script.specs.Words.{words_of};
ghost use Rattle.edit_script.specs.Imports.{is_name_byte, is_name, given_shift, import_command};

use crate::edits::read_shift;
use crate::words::next_word;
use dgn_drawing::{Command, Shift};
use patch_bytes::ByteList;
use std::alloc::{AllocError, Global};

// The command of `import` with these bytes behind it: the name of a file, and a displacement, where one is given.
pub fn read_import(alloc: Global, rest: &[u8]) -> Result<Option<Command>, AllocError>
    ensures { IfOk result (λ command. command ≡ import_command (words_of rest.now)) }
{
    let Some((name, rest)) = next_word(rest) else {
        return Ok(None);
    };
    if !is_name(name) {
        return Ok(None);
    }
    let Some(by) = given_shift(rest) else {
        return Ok(None);
    };
    let name = name.to_vec(alloc)?;
    Ok(Some(Command::Import(ByteList::from_vec(name), by)))
}

// The displacement that these bytes give, where any word stands there.
fn given_shift(rest: &[u8]) -> Option<Option<Shift>>
    ensures { result ≡ given_shift (words_of rest.now) }
{
    if next_word(rest).is_none() {
        return Some(None);
    }
    let by = read_shift(rest)?;
    Some(Some(by))
}

// Whether a word is a name.
fn is_name(word: &[u8]) -> bool
    ensures { result ≡ is_name word.now }
{
    !word.is_empty() && word.len() <= 255 && all_of_names(word)
}

fn all_of_names(word: &[u8]) -> bool
    ensures { result ≡ list_all is_name_byte word.now }
{
    word.iter().all(|b| 0x21 <= *b && *b <= 0x7E)
}
