use dgn_drawing::Command;

// How many lines of a script may ask for an import.
const MOST_IMPORTS: u32 = 4;

/// What one line of a script says.
#[derive(Drop)]
pub enum Reading {
    /// Nothing: the line is empty, blanks alone, or a comment.
    Nothing,
    /// This command.
    Asks(Command),
    /// No command of the language.
    Bad,
}

impl Reading {
    ghost use Rattle.std.specs.Prelude.{◌≡◌, ◌<◌, ◌≤◌, ◌+◌};
    ghost use Rattle.edit_script.specs.Grammar.{asking};
    ghost use Rattle.edit_script.specs.Imports.{is_import, limited, imports_with};

    /// What a line says whose name is known: its command, or that it is bad.
    pub fn asking(command: Option<Command>) -> Self
        ensures { result ≡ asking command }
    {
        match command {
            Some(command) => Reading::Asks(command),
            None => Reading::Bad,
        }
    }

    // Whether it asks for an import.
    fn is_import(&self) -> bool
        ensures { result ≡ is_import self.now }
    {
        matches!(self, Reading::Asks(Command::Import(_, _)))
    }

    /// What the line says behind so many lines that ask for an import: with a fifth it is bad.
    pub fn limited(self, imports: u32) -> Self
        ensures { result ≡ limited imports self }
    {
        if MOST_IMPORTS <= imports && self.is_import() {
            Reading::Bad
        } else {
            self
        }
    }

    /// How many lines ask for an import, with this one behind so many.
    pub fn imports_with(&self, imports: u32) -> u32
        requires { imports < 4294967295 }
        ensures exact { result ≡ imports_with imports self.now }
        ensures bounded { result ≤ imports + 1 }
    {
        if self.is_import() {
            imports + 1
        } else {
            imports
        }
    }
}
