// Telling which file isn't handed in that a run comes to read.

ghost use Rattle.std.specs.Prelude.{◌≡◌, ℕ, List, map, string_bytes, IfOk, None};
ghost use Rattle.std.specs.FinMap as maps;
ghost use Rattle.dgn_tool.specs.Outcome.{HasFiles};
ghost use Rattle.dgn_tool.specs.Readings.{AreThere};
ghost use Rattle.dgn_tool.specs.Request.{request_of, four_words};
ghost use Rattle.dgn_tool.specs.SecondFiles.{names_in};
ghost use Rattle.dgnedit_lib.specs.Missing.{missing_name, first_missing, first_absent, sources_behind};

use dgn_desk::LentDesk;
use dgn_tool::second_name;
use edit_script::{Command, MOST_SCRIPT, ScriptFault, read_script};
use std::alloc::{AllocError, Global};

// The name of the first file that a run with these words comes to read and that isn't there, where there is one. An error
// says that there was no memory.
pub(crate) fn missing_name(
    alloc: Global,
    words: &[String],
    desk: &LentDesk<'_>,
) -> Result<Vec<u8>, AllocError>
    requires { ¬ HasFiles (request_of (map string_bytes words.now)) desk.now.content.files }
    ensures { IfOk result (λ name. name.items
        ≡ missing_name (request_of (map string_bytes words.now)) desk.now.content.files) }
{
    match words {
        [_, input] => input.as_bytes().to_vec(alloc),
        [_, input, second, _] => missing_in_four(alloc, input.as_str(), second.as_str(), desk),
        _ => Ok(Vec::new(alloc)),
    }
}

// The same of four words, by the second and the third.
#[tactic(auto, using(crate::proofs::MissingFiles::input_tells))]
fn missing_in_four(
    alloc: Global,
    input: &str,
    second: &str,
    desk: &LentDesk<'_>,
) -> Result<Vec<u8>, AllocError>
    ensures { (command output : List ℕ)
        → ¬ HasFiles (four_words command input.now second.now output) desk.now.content.files
        → IfOk result (λ name. name.items ≡ missing_name (four_words command input.now second.now output) desk.now.content.files) }
{
    match desk.file(input) {
        Some(_) => missing_behind(alloc, second, desk),
        None => Vec::from_slice(alloc, input.as_bytes()),
    }
}

// The same, where IN is there: the script's name, or that of one of its imports.
fn missing_behind(alloc: Global, script: &str, desk: &LentDesk<'_>) -> Result<Vec<u8>, AllocError>
    ensures absent { IfOk result (λ name. maps.get desk.now.content.files script.now ≡ None → name.items ≡ script.now) }
    ensures missing { IfOk result (λ name. ¬ AreThere desk.now.content.files (sources_behind desk.now.content.files script.now)
        → name.items ≡ first_missing desk.now.content.files (sources_behind desk.now.content.files script.now)) }
{
    let Some(text) = desk.file(script) else {
        return script.as_bytes().to_vec(alloc);
    };
    if text.len() > MOST_SCRIPT {
        return Ok(Vec::new(alloc));
    }
    match read_script(alloc, text) {
        Ok(commands) => missing_import(alloc, &commands, desk),
        Err(ScriptFault::Line { .. }) => Ok(Vec::new(alloc)),
        Err(ScriptFault::Memory) => Err(AllocError),
    }
}

// The name of the first import whose file isn't there.
fn missing_import(
    alloc: Global,
    commands: &[Command],
    desk: &LentDesk<'_>,
) -> Result<Vec<u8>, AllocError>
    ensures { IfOk result (λ name. name.items ≡ first_absent desk.now.content.files (names_in commands.now)) }
{
    'commands: for command in commands {
        if let Command::Import(name, _) = command {
            let name = second_name(name);
            if desk.file(name).is_none() {
                return name.as_bytes().to_vec(alloc);
            }
        }
    }
    Ok(Vec::new(alloc))
}
