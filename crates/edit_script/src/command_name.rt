ghost use Rattle.std.specs.Prelude.{◌≡◌};
ghost use Rattle.edit_script.specs.CommandNames.{name_of};

/// The commands of a script, each by the word that begins it.
#[derive(Clone, Copy)]
pub enum CommandName {
    Line,
    String,
    Shape,
    Text,
    Fence,
    Import,
    Color,
    Move,
    Copy,
    Sym,
    Delete,
    Undo,
    Levels,
    Show,
    Tree,
    Elements,
    Refs,
    Links,
    Select,
    NoFence,
    FenceMove,
    FenceCopy,
    FenceSym,
    FenceDelete,
    Audit,
    Fit,
}

// Each word that begins a command, and the command.
const COMMAND_WORDS: [(&[u8], CommandName); 26] = [
    (b"line", CommandName::Line),
    (b"string", CommandName::String),
    (b"shape", CommandName::Shape),
    (b"text", CommandName::Text),
    (b"fence", CommandName::Fence),
    (b"import", CommandName::Import),
    (b"color", CommandName::Color),
    (b"move", CommandName::Move),
    (b"copy", CommandName::Copy),
    (b"sym", CommandName::Sym),
    (b"delete", CommandName::Delete),
    (b"undo", CommandName::Undo),
    (b"levels", CommandName::Levels),
    (b"show", CommandName::Show),
    (b"tree", CommandName::Tree),
    (b"elements", CommandName::Elements),
    (b"refs", CommandName::Refs),
    (b"links", CommandName::Links),
    (b"select", CommandName::Select),
    (b"nofence", CommandName::NoFence),
    (b"fmove", CommandName::FenceMove),
    (b"fcopy", CommandName::FenceCopy),
    (b"fsym", CommandName::FenceSym),
    (b"fdelete", CommandName::FenceDelete),
    (b"audit", CommandName::Audit),
    (b"fit", CommandName::Fit),
];

impl CommandName {
    /// The command that a word begins.
    pub fn of(word: &[u8]) -> Option<CommandName>
        ensures { result ≡ name_of word.now }
    {
        let mut left = COMMAND_WORDS.as_slice();
        'entries: while let [(known, name), behind @ ..] = left {
            if word == *known {
                return Some(*name);
            }
            left = behind;
        }
        None
    }
}
