// Scripts that are read, scripts that aren't, and the texts of the faults.

use Told::{Corners, Fence, Import, Levels, Path, Plain, Text};
use dgn_drawing::{Edit, FenceEdit, Mode, New, NewShape, Shift, SymbChange};
use edit_script::{MOST_SCRIPT, *};
use plane_geom::Pt;
use std::alloc::{AllocError, Global};
use std::process::Abort;
use std::test::Fail;

// What is told of a command.
#[derive(Clone, Copy)]
enum Told {
    // One that names no list: its name, and its numbers in order. They begin with the element or the mode, which counts
    // from 0. A displacement is its number of axes and three distances, and a look is three numbers, -1 where one isn't
    // given. All behind the last is 0.
    Plain(&'static str, [i64; 5]),
    // It appends an element of this type with this pen along these points.
    Path(u8, [u8; 5], &'static [[i32; 3]]),
    // It appends a text of font 5 and justification 6 with so many axes, this origin, these multipliers and these
    // characters.
    Text(u8, [i32; 3], [i32; 2], &'static [u8]),
    // It sets the fence to these corners.
    Fence(&'static [Pt]),
    // It sets the fence to so many corners.
    Corners(usize),
    // It sets this mask.
    Levels(u64),
    // It imports the file of this name with this displacement, or none.
    Import(&'static [u8], Option<[i64; 5]>),
}

// A script, and what is told of its commands.
type Row = (&'static [u8], &'static [Told]);

// A command that names no list, as its name and its numbers.
fn plain(command: &Command) -> (&'static str, [i64; 5]) {
    match command {
        Command::Edit(edit) => plain_edit(edit),
        Command::Fenced(mode, edit) => plain_fenced(mode_number(*mode), edit),
        Command::Select(mode) => ("select", [mode_number(*mode), 0, 0, 0, 0]),
        Command::Tree(n) => ("tree", [i64::from(*n), 0, 0, 0, 0]),
        Command::Links(n) => ("links", [i64::from(*n), 0, 0, 0, 0]),
        Command::Fit(n) => ("fit", [i64::from(*n), 0, 0, 0, 0]),
        Command::Undo => ("undo", [0; 5]),
        Command::NoFence => ("nofence", [0; 5]),
        Command::Show => ("show", [0; 5]),
        Command::Elements => ("elements", [0; 5]),
        Command::Refs => ("refs", [0; 5]),
        Command::Audit => ("audit", [0; 5]),
        Command::Levels(_) | Command::Fence(_) | Command::Import(..) => ("list", [0; 5]),
    }
}

// The same of an edit.
fn plain_edit(edit: &Edit) -> (&'static str, [i64; 5]) {
    match edit {
        Edit::Move { n, by } => ("move", displaced(i64::from(*n), by)),
        Edit::Copy { n, by } => ("copy", displaced(i64::from(*n), by)),
        Edit::Sym { n, change } => ("sym", looking(i64::from(*n), change)),
        Edit::Delete { n } => ("delete", [i64::from(*n), 0, 0, 0, 0]),
        Edit::Append(_) => ("list", [0; 5]),
    }
}

// The same of an edit by a fence in this mode.
fn plain_fenced(mode: i64, edit: &FenceEdit) -> (&'static str, [i64; 5]) {
    match edit {
        FenceEdit::Move(by) => ("fmove", displaced(mode, by)),
        FenceEdit::Copy(by) => ("fcopy", displaced(mode, by)),
        FenceEdit::Sym(change) => ("fsym", looking(mode, change)),
        FenceEdit::Delete => ("fdelete", [mode, 0, 0, 0, 0]),
    }
}

fn mode_number(mode: Mode) -> i64 {
    match mode {
        Mode::Inside => 0,
        Mode::Overlap => 1,
        Mode::Void => 2,
    }
}

fn displaced(first: i64, by: &Shift) -> [i64; 5] {
    [first, i64::from(by.axes), by.by[0], by.by[1], by.by[2]]
}

fn looking(first: i64, change: &SymbChange) -> [i64; 5] {
    [
        first,
        change.color.map_or(-1, i64::from),
        change.weight.map_or(-1, i64::from),
        change.style.map_or(-1, i64::from),
        0,
    ]
}

// The level, the colour, the weight and the style of an element, and its number of axes.
fn pen_of(new: &New) -> [u8; 5] {
    let symb = new.symb;
    [new.level, symb.color, symb.weight, symb.style, new.axes]
}

// The element that a command appends, where it appends one.
fn new_of(command: &Command) -> Option<&New> {
    match command {
        Command::Edit(Edit::Append(new)) => Some(new),
        _ => None,
    }
}

// Whether an element is of this type and runs along these points.
fn runs_along(shape: &NewShape, kind: u8, wanted: &[[i32; 3]]) -> bool {
    match shape {
        NewShape::Line(points) => kind == 3 && points.as_slice() == wanted,
        NewShape::Chain(points) => kind == 4 && points.as_slice() == wanted,
        NewShape::Shape(points) => kind == 6 && points.as_slice() == wanted,
        NewShape::Text { .. } => false,
    }
}

// Whether a command appends an element of this type with this pen along these points.
fn is_path(command: &Command, kind: u8, pen: [u8; 5], wanted: &[[i32; 3]]) -> bool {
    match new_of(command) {
        Some(new) => pen_of(new) == pen && runs_along(&new.shape, kind, wanted),
        None => false,
    }
}

// Whether an element is a text of font 5 and justification 6 with this origin, these multipliers and these characters.
fn has_text(shape: &NewShape, at: [i32; 3], multipliers: [i32; 2], wanted: &[u8]) -> bool {
    match shape {
        NewShape::Text {
            font: 5,
            just: 6,
            length,
            height,
            origin,
            chars,
        } => *origin == at && [*length, *height] == multipliers && chars.as_slice() == wanted,
        _ => false,
    }
}

// Whether a command appends such a text with so many axes.
fn is_text(
    command: &Command,
    axes: u8,
    at: [i32; 3],
    multipliers: [i32; 2],
    wanted: &[u8],
) -> bool {
    match new_of(command) {
        Some(new) => {
            pen_of(new) == [9, 3, 2, 1, axes] && has_text(&new.shape, at, multipliers, wanted)
        }
        None => false,
    }
}

// Whether a command sets the fence to these corners.
fn is_fence(command: &Command, wanted: &[Pt]) -> bool {
    match command {
        Command::Fence(corners) => corners.as_slice() == wanted,
        _ => false,
    }
}

// Whether a command sets the fence to so many corners.
fn has_corners(command: &Command, wanted: usize) -> bool {
    match command {
        Command::Fence(corners) => corners.len() == wanted,
        _ => false,
    }
}

// Whether a command is an import of this file with this displacement: its number of axes and the distances, or none.
fn is_import(command: &Command, name: &[u8], wanted: Option<[i64; 5]>) -> bool {
    match command {
        Command::Import(word, None) => word.as_slice() == name && wanted.is_none(),
        Command::Import(word, Some(by)) => {
            word.as_slice() == name && wanted == Some(displaced(0, by))
        }
        _ => false,
    }
}

// Whether a command sets this mask.
fn is_mask(command: &Command, wanted: u64) -> bool {
    match command {
        Command::Levels(mask) => mask.0 == wanted,
        _ => false,
    }
}

// Whether a command is what is told of it.
fn is_told(command: &Command, told: &Told) -> bool {
    match told {
        Plain(name, numbers) => {
            let (its_name, its_numbers) = plain(command);
            its_name == *name && its_numbers == *numbers
        }
        Path(kind, pen, points) => is_path(command, *kind, *pen, points),
        Text(axes, at, multipliers, chars) => is_text(command, *axes, *at, *multipliers, chars),
        Fence(corners) => is_fence(command, corners),
        Corners(count) => has_corners(command, *count),
        Levels(mask) => is_mask(command, *mask),
        Import(name, by) => is_import(command, name, *by),
    }
}

// Whether commands are what is told of them, and no others.
fn are_told(commands: &[Command], told: &[Told]) -> bool {
    for (command, one) in commands.iter().zip(told) {
        if !is_told(command, one) {
            return false;
        }
    }
    commands.len() == told.len()
}

// Whether a script is read, and its commands are what is told of them.
fn reads_as(alloc: Global, script: &[u8], told: &[Told]) -> bool {
    if script.len() > MOST_SCRIPT {
        return false;
    }
    match read_script(alloc, script) {
        Ok(commands) => are_told(&commands, told),
        Err(_) => false,
    }
}

// Each script is read as its row tells.
fn all_read<R: Abort + Alloc<A = Global>>(rt: &R, rows: &[Row]) {
    for (script, told) in rows {
        assert!(rt; reads_as(rt.alloc(), script, told), "{}", script.len());
    }
}

// Lines of blanks, comments, ends of lines; every command that names no list, with the least and the greatest numbers
// of each place.
const READ: [Row; 12] = [
    (b"", &[]),
    (b"\r\n\n   \n# color 1 256\n   # \t\n#\r\n \r", &[]),
    (
        b"  color  1   3  \r\n\r\ncolor 1 4\r\n#\ncolor 9 1",
        &[
            Plain("sym", [1, 3, -1, -1, 0]),
            Plain("sym", [1, 4, -1, -1, 0]),
            Plain("sym", [9, 1, -1, -1, 0]),
        ],
    ),
    (
        b"color 0 0\ncolor 4294967295 255\n",
        &[
            Plain("sym", [0, 0, -1, -1, 0]),
            Plain("sym", [4294967295, 255, -1, -1, 0]),
        ],
    ),
    (
        b"sym 1 4 - -\nsym 2 - 31 7\nsym 1 1 2 3\nsym 3 - - -\r",
        &[
            Plain("sym", [1, 4, -1, -1, 0]),
            Plain("sym", [2, -1, 31, 7, 0]),
            Plain("sym", [1, 1, 2, 3, 0]),
            Plain("sym", [3, -1, -1, -1, 0]),
        ],
    ),
    (
        b"move 1 10 -5\n  move  1  0  0 0 \nmove 1 1 2 3\r\n",
        &[
            Plain("move", [1, 2, 10, -5, 0]),
            Plain("move", [1, 3, 0, 0, 0]),
            Plain("move", [1, 3, 1, 2, 3]),
        ],
    ),
    (
        b"move 1 4294967295 -4294967295",
        &[Plain("move", [1, 2, 4294967295, -4294967295, 0])],
    ),
    (
        b"copy 1 10 -5\n copy 1 0 4294967295 -4294967295\r\n",
        &[
            Plain("copy", [1, 2, 10, -5, 0]),
            Plain("copy", [1, 3, 0, 4294967295, -4294967295]),
        ],
    ),
    (
        b"delete 1\n undo \ndelete 0\nnofence \n",
        &[
            Plain("delete", [1, 0, 0, 0, 0]),
            Plain("undo", [0; 5]),
            Plain("delete", [0; 5]),
            Plain("nofence", [0; 5]),
        ],
    ),
    (
        b"show\ntree 4294967295 \nelements\n refs \r\nlinks 7\naudit\nfit 3",
        &[
            Plain("show", [0; 5]),
            Plain("tree", [4294967295, 0, 0, 0, 0]),
            Plain("elements", [0; 5]),
            Plain("refs", [0; 5]),
            Plain("links", [7, 0, 0, 0, 0]),
            Plain("audit", [0; 5]),
            Plain("fit", [3, 0, 0, 0, 0]),
        ],
    ),
    (
        b"fmove overlap 1 0\n  fmove  inside 1  -2 3 \r\nfcopy void 0 4294967295",
        &[
            Plain("fmove", [1, 2, 1, 0, 0]),
            Plain("fmove", [0, 3, 1, -2, 3]),
            Plain("fcopy", [2, 2, 0, 4294967295, 0]),
        ],
    ),
    (
        b"fsym inside 5 - -\nfsym void - 31 7\nfdelete void\n select overlap ",
        &[
            Plain("fsym", [0, 5, -1, -1, 0]),
            Plain("fsym", [2, -1, 31, 7, 0]),
            Plain("fdelete", [2, 0, 0, 0, 0]),
            Plain("select", [1, 0, 0, 0, 0]),
        ],
    ),
];

#[test]
fn scripts_that_are_read(rt: HostRuntime) {
    all_read(&rt, &READ);
}

// The number of the first bad line of a script, or 0 where it is read.
fn first_bad(alloc: Global, script: &[u8]) -> Option<u32> {
    if script.len() > MOST_SCRIPT {
        return None;
    }
    match read_script(alloc, script) {
        Ok(_) => Some(0),
        Err(ScriptFault::Line { number }) => Some(number),
        Err(ScriptFault::Memory) => None,
    }
}

// Scripts with the number of their first bad line.
const BAD_AT: [(&[u8], u32); 6] = [
    (b"color 1 1\n\ncolour 1 1\n", 3),
    (b"# a\r\n\r\n   \r\n  # b\r\ncolor 1\r\n", 5),
    (b"show\r\nundo\r\n\r\n# x\r\nmove 1 +1 2", 5),
    (b"\n\n\nx", 4),
    (b"color 1 1\nshows\nshow\n", 2),
    (b"import a\nimport b\nimport c\n\nimport d\nimport e\n", 6),
];

// Lines that are no commands: tabs, numbers in other forms or out of their place's range, words too many or too few.
const BAD: [&[u8]; 101] = [
    b"\tcolor 1 7",
    b"color\t1 7",
    b"color 1 7\t\n",
    b"color 1 1\r\r\n",
    b"color 1 256",
    b"color 4294967296 1",
    b"color 99999999999999999999 1",
    b"color 01 1",
    b"color 1 00",
    b"color -1 1",
    b"color +1 1",
    b"color 1 1 1",
    b"color 1 1 # red",
    b"color",
    b"col 1 1",
    b"Color 1 1",
    b"move 1 1",
    b"move 1 1 2 3 4",
    b"move 1 -0 1",
    b"move 1 -01 1",
    b"move 1 4294967296 0",
    b"move 1 -4294967296 0",
    b"move -1 1 1",
    b"move 1 - 1",
    b"move 1 --1 1",
    b"move 1 1.5 2",
    b"copy 1 1",
    b"copy 1 1 2 3 4",
    b"copy - 1 2",
    b"sym 1 256 - -",
    b"sym 1 1 32 1",
    b"sym 1 1 1 8",
    b"sym 1 1 1",
    b"sym 1 1 1 1 1",
    b"sym - 1 1 1",
    b"sym 1 -- 1 1",
    b"sym 1 -1 1 1",
    b"delete",
    b"delete 1 2",
    b"undo 1",
    b"show 1",
    b"elements 1",
    b"refs refs",
    b"element",
    b"tree",
    b"tree 1 2",
    b"links -1",
    b"links",
    b"audit 1",
    b"fit",
    b"fit 1 2",
    b"levels",
    b"levels 64",
    b"levels 5-3",
    b"levels 1-",
    b"levels -1",
    b"levels 1-2-3",
    b"levels 1 all",
    b"levels All",
    b"line",
    b"line 9 3 2",
    b"line 64 3 2 1 0,0 1,1",
    b"line 9 256 2 1 0,0 1,1",
    b"line 9 3 32 1 0,0 1,1",
    b"line 9 3 2 8 0,0 1,1",
    b"line 9 3 - 1 0,0 1,1",
    b"line 9 3 2 1 0,0 1,1,1",
    b"line 9 3 2 1 0,0,0 1,1",
    b"line 9 3 2 1 0 1",
    b"line 9 3 2 1 0,0 1, 1",
    b"line 9 3 2 1 0,0 ,1",
    b"line 9 3 2 1 0,0 1,,1",
    b"line 9 3 2 1 0,0,0,0 1,1,1,1",
    b"line 9 3 2 1 0,0 2147483648,0",
    b"line 9 3 2 1 0,0 0,-2147483649",
    b"line 9 3 2 1 0,0 -0,1",
    b"line 9 3 2 1 0,0 1,1 # a line",
    b"shape 9 3 2 1 0,0 9,0 9,9,0",
    b"text 9 3 2 1 5 6 7 8 1,2",
    b"text 9 3 2 1 5 6 7 8 1 x",
    b"text 9 3 2 1 256 6 7 8 1,2 x",
    b"text 9 3 2 1 5 256 7 8 1,2 x",
    b"text 9 3 2 1 5 6 2147483648 8 1,2 x",
    b"text 9 3 2 1 5 6 7 -8 1,2 x",
    b"fence  \r\n",
    b"fence 0,0 1,1,1",
    b"fence 0,0 1",
    b"fence inside 0,0",
    b"nofence 1",
    b"select",
    b"select Inside",
    b"select inside void",
    b"fmove inside 1",
    b"fmove inside 1 2 3 4",
    b"fcopy outside 1 1",
    b"fsym inside 1 1 1 1",
    b"fdelete voids",
    b"import",
    b"import a\tb",
    b"import \x7F",
    b"import a 1",
];

// Each script has its first bad line there.
fn all_bad<R: Abort + Alloc<A = Global>>(rt: &R, rows: &[(&[u8], u32)]) {
    for (script, number) in rows {
        assert!(rt; first_bad(rt.alloc(), script) == Some(*number));
    }
}

// Each line is bad.
fn each_bad<R: Abort + Alloc<A = Global>>(rt: &R, lines: &[&[u8]]) {
    for line in lines {
        assert!(rt; first_bad(rt.alloc(), line) == Some(1), "{}", line.len());
    }
}

// A script isn't read where a line is bad, and the first such line is told.
#[test]
fn scripts_that_are_not_read(rt: HostRuntime) {
    all_bad(&rt, &BAD_AT);
    each_bad(&rt, &BAD);
}

// What appends an element along points: its type, its pen and its points.
const PATHS: [Row; 5] = [
    (
        b"line 0 0 0 0 0,0 1,2",
        &[Path(3, [0, 0, 0, 0, 2], &[[0, 0, 0], [1, 2, 0]])],
    ),
    (
        b"line 63 255 31 7 -2147483648,2147483647 -1,10\r\n",
        &[Path(
            3,
            [63, 255, 31, 7, 2],
            &[[-2147483648, 2147483647, 0], [-1, 10, 0]],
        )],
    ),
    (
        b"  line  9  3  2  1   1,2,3    4,5,-6  ",
        &[Path(3, [9, 3, 2, 1, 3], &[[1, 2, 3], [4, 5, -6]])],
    ),
    (
        b"string 9 3 2 1 1,2 3,4 5,6",
        &[Path(4, [9, 3, 2, 1, 2], &[[1, 2, 0], [3, 4, 0], [5, 6, 0]])],
    ),
    (
        b"shape 9 3 2 1 0,0,1 9,0,1 9,9,1\n",
        &[Path(6, [9, 3, 2, 1, 3], &[[0, 0, 1], [9, 0, 1], [9, 9, 1]])],
    ),
];

#[test]
fn paths_that_are_appended(rt: HostRuntime) {
    all_read(&rt, &PATHS);
}

// What appends a text: its axes, its origin, its multipliers and its characters.
const TEXTS: [Row; 4] = [
    (
        b"text 9 3 2 1 5 6 700 800 1,-2 A b  # c ",
        &[Text(2, [1, -2, 0], [700, 800], b"A b  # c ")],
    ),
    (
        b"  text   9 3 2  1 5 6 2147483647 0  1,2,-3   x\r\n",
        &[Text(3, [1, 2, -3], [2147483647, 0], b"  x")],
    ),
    (
        b"text 9 3 2 1 5 6 1 1 0,0  \n",
        &[Text(2, [0, 0, 0], [1, 1], b" ")],
    ),
    (
        b"text 9 3 2 1 5 6 1 1 0,0 \t\r\r\n",
        &[Text(2, [0, 0, 0], [1, 1], b"\t\r")],
    ),
];

#[test]
fn texts_that_are_appended(rt: HostRuntime) {
    all_read(&rt, &TEXTS);
}

// A line: these bytes, and so many times a piece.
fn line_of(alloc: Global, head: &[u8], piece: &[u8], count: usize) -> Result<Vec<u8>, AllocError> {
    let mut line = head.to_vec(alloc)?;
    for _ in 0..count {
        line.extend_from_slice(piece)?;
    }
    Ok(line)
}

// How a line begins, what follows, how often, and whether it is read: how many points and characters there may be, and how
// long a name.
const COUNTS: [(&[u8], &[u8], usize, bool); 14] = [
    (b"line 9 3 2 1", b" 1,2", 1, false),
    (b"line 9 3 2 1", b" 1,2", 3, false),
    (b"string 9 3 2 1", b" 1,2", 1, false),
    (b"string 9 3 2 1", b" 1,2", 2, true),
    (b"string 9 3 2 1", b" 1,2", 101, true),
    (b"string 9 3 2 1", b" 1,2", 102, false),
    (b"shape 9 3 2 1", b" 1,2,3", 2, false),
    (b"shape 9 3 2 1", b" 1,2,3", 101, true),
    (b"shape 9 3 2 1", b" 1,2,3", 102, false),
    (b"text 9 3 2 1 5 6 700 800 1,2 ", b"x", 0, false),
    (b"text 9 3 2 1 5 6 700 800 1,2 ", b"x", 255, true),
    (b"text 9 3 2 1 5 6 700 800 1,2 ", b"x", 256, false),
    (b"import ", b"a", 255, true),
    (b"import ", b"a", 256, false),
];

#[test]
fn how_many_points_and_characters(rt: HostRuntime) -> Result<(), Fail> {
    for (head, piece, count, is_read) in &COUNTS {
        let line = line_of(rt.alloc(), head, piece, *count)?;
        let bad = if *is_read { 0 } else { 1 };
        assert!(rt; first_bad(rt.alloc(), &line) == Some(bad), "at {count}");
    }
    Ok(())
}

// A fence from one end of the design plane to the other.
const FENCES: [Row; 1] = [(
    b"fence -10,2147483647 0,-2147483648\r\n",
    &[Fence(&[
        Pt {
            x: -10,
            y: 2147483647,
        },
        Pt {
            x: 0,
            y: -2147483648,
        },
    ])],
)];

#[test]
fn fences(rt: HostRuntime) -> Result<(), Fail> {
    all_read(&rt, &FENCES);
    // how many corners a fence may have isn't asked here
    for count in [1, 300] {
        let script = line_of(rt.alloc(), b"fence", b" 1,2", count)?;
        assert!(rt; reads_as(rt.alloc(), &script, &[Corners(count)]));
    }
    Ok(())
}

// What sets a mask, and the mask.
const MASKS: [Row; 6] = [
    (b"levels all", &[Levels(0xFFFF_FFFF_FFFF_FFFF)]),
    (b"levels none", &[Levels(0)]),
    (b"levels 0", &[Levels(1)]),
    (b"levels 3-5 63", &[Levels(0x8000_0000_0000_0038)]),
    (b"levels 0-63", &[Levels(0xFFFF_FFFF_FFFF_FFFF)]),
    (b" levels  7-7   1-2 2 ", &[Levels(0x86)]),
];

#[test]
fn masks(rt: HostRuntime) {
    all_read(&rt, &MASKS);
}

// Four imports, of which the last is of the first one's file.
const IMPORTS: [Row; 1] = [(
    b"import lib\n import ../!~ 1 -2 \nimport # 1 2 3\nimport lib\n",
    &[
        Import(b"lib", None),
        Import(b"../!~", Some([0, 2, 1, -2, 0])),
        Import(b"#", Some([0, 3, 1, 2, 3])),
        Import(b"lib", None),
    ],
)];

#[test]
fn imports_that_are_read(rt: HostRuntime) {
    all_read(&rt, &IMPORTS);
}

// What is said of a fault.
fn said(alloc: Global, fault: &ScriptFault) -> Result<String, AllocError> {
    format!(in alloc; "{fault}")
}

#[test]
fn texts_of_faults(rt: HostRuntime) -> Result<(), Fail> {
    let alloc = rt.alloc();
    assert!(rt; said(alloc, &ScriptFault::Line { number: 3 })?.as_str() == "line 3");
    assert!(rt; said(alloc, &ScriptFault::Memory)?.as_str() == "no memory");
    Ok(())
}
