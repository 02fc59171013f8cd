// Generating a drawing, and trying it by a fixed script.

ghost use Rattle.std.specs.Prelude.{◌≡◌, ◌≤◌, ◌++◌, length, slice_index, IfOk, OnOk};
ghost use Rattle.dgn_drawing.specs.Spelling.{spelling};
ghost use Rattle.dgn_session.specs.State.{state_of};
ghost use Rattle.dgn_answers.specs.Commands.{first_state};
ghost use Rattle.dgn_tool.specs.Ends.{DeskComes};
ghost use Rattle.dgn_answers.specs.Steps.{after_all};
ghost use Rattle.dgn_tool.specs.Generation.{fixed_commands, fixed_steps, sizes_of, counts_of, summary, generated_from, drawing_of, generation};

use crate::ending::Ending;
use crate::output::{file_filled, filling_len};
use dgn_answers::{Tally, run_unsaid};
use dgn_desk::{Desk, Stop};
use dgn_drawing::MOST_DESIGN;
use dgn_generator::generate;
use dgn_listing::push_numbered;
use dgn_session::Session;
use edit_script::{Command, ScriptFault, read_script};
use elem_index::read_design;
use std::alloc::{AllocError, Global};

// The commands that are run on a generated drawing.
const SCRIPT: &[u8; 132] = b"move 1 5 -5
color 1 7
copy 1 100 0
fence 0,0 700000,0 700000,700000 0,700000
fmove inside 1 1
fsym overlap 3 2 1
undo
undo
delete 0
";

// Generates the drawing of a seed and a count, runs the fixed script on it, writes it, and says its summary.
pub(crate) fn generate_file<D: Desk>(
    alloc: Global,
    desk: &mut D,
    seed: u32,
    count: u32,
    output: &str,
) -> Result<Ending, Stop>
    requires positive { 1 ≤ count }
    requires bounded { count ≤ 200000 }
    ensures { DeskComes D.Desk (generation seed count output.now) desk.old desk.new result }
{
    let mut session = begin(alloc, seed, count)?;
    try_drawing(alloc, desk, &mut session, output)
}

// Begins a session on the drawing of a seed and a count. It opens, so opening it fails for want of memory alone.
fn begin(alloc: Global, seed: u32, count: u32) -> Result<Session, AllocError>
    requires positive { 1 ≤ count }
    requires bounded { count ≤ 200000 }
    ensures state { IfOk result (λ s. state_of s ≡ first_state (drawing_of seed count)) }
    ensures tail { IfOk result (λ s. s.tail ≡ (drawing_of seed count).tail) }
{
    let bytes = generate(alloc, seed, count)?;
    match read_design(alloc, bytes) {
        Ok(design) => Session::start(alloc, design),
        Err(_) => Err(AllocError),
    }
}

// Runs the fixed script on the drawing of a session, writes it, and says its summary.
fn try_drawing<D: Desk>(
    alloc: Global,
    desk: &mut D,
    session: &mut Session,
    output: &str,
) -> Result<Ending, Stop>
    ensures { DeskComes D.Desk
        (generated_from (state_of session.old) session.old.tail output.now) desk.old desk.new result }
{
    let before = session.design().body.len();
    let text = summarize(alloc, session, before)?;
    let design = session.design();
    file_filled(desk, output, before, &design.body, &design.tail, &text)
}

// Runs the fixed script on the drawing of a session, whose elements have `before` bytes, and gives its summary.
fn summarize(alloc: Global, session: &mut Session, before: usize) -> Result<Vec<u8>, AllocError>
    requires before { before ≡ length (spelling (state_of session.old).top) }
    requires bounded { before ≤ MOST_DESIGN }
    ensures text { IfOk result (λ text. text.items ≡ summary (state_of session.old) session.old.tail) }
    ensures state { OnOk result (state_of session.new ≡ after_all fixed_steps (state_of session.old)) }
    ensures tail { OnOk result (session.new.tail ≡ session.old.tail) }
{
    let commands = fixed_script(alloc)?;
    let counts = run_unsaid(alloc, session, &commands, &mut Vec::new(alloc))?;
    let mut text = Vec::new(alloc);
    push_sizes(alloc, &mut text, session, before)?;
    push_counts(alloc, &mut text, &counts, commands.len())?;
    Ok(text)
}

// The commands of the fixed script.
fn fixed_script(alloc: Global) -> Result<Vec<Command>, AllocError>
    ensures { IfOk result (λ commands. commands.items ≡ fixed_commands) }
{
    match read_script(alloc, SCRIPT) {
        Ok(commands) => Ok(commands),
        Err(ScriptFault::Memory) => Err(AllocError),
        Err(ScriptFault::Line { .. }) => unreachable!(),
    }
}

// Appends how many elements the drawing of a session has, how many bytes its file, and how many items it shows.
fn push_sizes(
    alloc: Global,
    text: &mut Vec<u8>,
    session: &Session,
    before: usize,
) -> Result<(), AllocError>
    requires { before ≤ MOST_DESIGN }
    ensures { OnOk result (text.new.items
        ≡ text.old.items ++ sizes_of before session.now.tail (state_of session.now)) }
{
    let design = session.design();
    let zeros = filling_len(before, &design.tail, design.body.len());
    let bytes = design.body.len() + design.tail.len() + zeros;
    let shown = session.count_shown()?;
    push_numbered(alloc, text, b"elements ", u64::from(design.count()))?;
    push_numbered(alloc, text, b"bytes ", bytes as u64)?;
    push_numbered(alloc, text, b"shown ", shown as u64)
}

// Appends how many trees the fifth and the sixth of so many commands edited, how many commands were accepted, and how
// many refused.
fn push_counts(
    alloc: Global,
    text: &mut Vec<u8>,
    counts: &Tally,
    commands: usize,
) -> Result<(), AllocError>
    ensures { OnOk result (text.new.items
        ≡ text.old.items ++ counts_of counts.now.trees.items commands counts.now.refused) }
{
    let accepted = (commands as u64).saturating_sub(counts.refused);
    push_numbered(alloc, text, b"moved ", trees_at(&counts.trees, 4))?;
    push_numbered(alloc, text, b"marked ", trees_at(&counts.trees, 5))?;
    push_numbered(alloc, text, b"accepted ", accepted)?;
    push_numbered(alloc, text, b"refused ", counts.refused)
}

// How many trees the command with this place in the script edited.
fn trees_at(trees: &[u32], place: usize) -> u64
    ensures { result ≡ slice_index trees.now place }
{
    if place < trees.len() {
        u64::from(trees[place])
    } else {
        0
    }
}
