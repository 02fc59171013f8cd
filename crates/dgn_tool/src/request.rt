ghost use Rattle.std.specs.Prelude.{◌≡◌, map, codes, string_bytes, option_map, IfSome};
ghost use Rattle.edit_script.specs.Numbers.{number_within};
ghost use Rattle.dgn_tool.specs.Request.{request_of, check_of, four_words, edit_of, pack_of, apply_of, generation_of};
ghost use Rattle.dgn_tool.specs.RequestView.{seen, IsCounted};

use edit_script::number;

/// What the words of the command line ask for, by the names in them.
pub enum Request<'a> {
    /// To run a script on a design file and to write the file that comes of it.
    Edit {
        input: &'a str,
        script: &'a str,
        output: &'a str,
    },
    /// To say how many elements a design file has.
    Check {
        input: &'a str,
    },
    /// To generate the drawing of a seed with so many elements, 1 to 200000, and to write it.
    Gen {
        seed: u32,
        count: u32,
        output: &'a str,
    },
    /// To run a script on a design file and to write what its edits did as a patch file.
    Pack {
        input: &'a str,
        script: &'a str,
        patch: &'a str,
    },
    /// To apply a patch file to a design file and to write the file that comes of it.
    Apply {
        input: &'a str,
        patch: &'a str,
        output: &'a str,
    },
}

// The most elements that are generated.
const MOST_GENERATED: u32 = 200000;

/// The request that the words make: `edit IN SCRIPT OUT`, `pack IN SCRIPT PATCH` or `apply IN PATCH OUT`, where the
/// first file and the last are different, `check IN`, or `gen SEED COUNT OUT`. None exactly where they are of no form.
pub fn read_words(words: &[String]) -> Option<Request<'_>>
    ensures asked { option_map seen result ≡ request_of (map string_bytes words.now) }
    ensures counted { IfSome result IsCounted }
{
    match words {
        [command, input] => read_two(command.as_str(), input.as_str()),
        [command, second, third, fourth] => read_four(
            command.as_str(),
            second.as_str(),
            third.as_str(),
            fourth.as_str(),
        ),
        _ => None,
    }
}

// The request that two words make.
fn read_two<'a>(command: &str, input: &'a str) -> Option<Request<'a>>
    ensures asked { option_map seen result ≡ check_of command.now input.now }
    ensures counted { IfSome result IsCounted }
{
    match command.as_bytes() {
        b"check" => Some(Request::Check { input }),
        _ => None,
    }
}

// The request that four words make.
fn read_four<'a>(
    command: &str,
    second: &'a str,
    third: &'a str,
    fourth: &'a str,
) -> Option<Request<'a>>
    ensures asked { option_map seen result ≡ four_words command.now second.now third.now fourth.now }
    ensures counted { IfSome result IsCounted }
{
    match command.as_bytes() {
        b"edit" => read_edit(second, third, fourth),
        b"pack" => read_pack(second, third, fourth),
        b"apply" => read_apply(second, third, fourth),
        b"gen" => read_generation(second, third, fourth),
        _ => None,
    }
}

// The request to edit, where the first word and the last are different.
fn read_edit<'a>(input: &'a str, script: &'a str, output: &'a str) -> Option<Request<'a>>
    ensures asked { option_map seen result ≡ edit_of (codes "edit") input.now script.now output.now }
    ensures counted { IfSome result IsCounted }
{
    if input == output {
        return None;
    }
    Some(Request::Edit {
        input,
        script,
        output,
    })
}

// The request to pack, where the first word and the last are different.
fn read_pack<'a>(input: &'a str, script: &'a str, patch: &'a str) -> Option<Request<'a>>
    ensures asked { option_map seen result ≡ pack_of input.now script.now patch.now }
    ensures counted { IfSome result IsCounted }
{
    if input == patch {
        return None;
    }
    Some(Request::Pack {
        input,
        script,
        patch,
    })
}

// The request to apply a patch file, where the first word and the last are different.
fn read_apply<'a>(input: &'a str, patch: &'a str, output: &'a str) -> Option<Request<'a>>
    ensures asked { option_map seen result ≡ apply_of input.now patch.now output.now }
    ensures counted { IfSome result IsCounted }
{
    if input == output {
        return None;
    }
    Some(Request::Apply {
        input,
        patch,
        output,
    })
}

// The request to generate a drawing, where the words are a seed and a count.
fn read_generation<'a>(seed: &str, count: &str, output: &'a str) -> Option<Request<'a>>
    ensures asked { option_map seen result
        ≡ generation_of (number_within 4294967295 seed.now) (number_within 4294967295 count.now) output.now }
    ensures counted { IfSome result IsCounted }
{
    let seed = number(seed.as_bytes(), u32::MAX)?;
    let count = number(count.as_bytes(), u32::MAX)?;
    if 1 <= count && count <= MOST_GENERATED {
        return Some(Request::Gen {
            seed,
            count,
            output,
        });
    }
    None
}
