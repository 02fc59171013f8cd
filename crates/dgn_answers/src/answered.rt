/// What a command came to.
#[derive(Clone, Copy)]
pub struct Answered {
    /// Whether it was refused.
    pub refused: bool,
    /// How many trees it changed or copied, as an edit of all that the fence chooses.
    pub trees: u32,
}

impl Answered {
    /// A command that was done, and is no edit of all that the fence chooses.
    pub const DONE: Answered = Answered {
        refused: false,
        trees: 0,
    };
    /// A command that was refused.
    pub const REFUSED: Answered = Answered {
        refused: true,
        trees: 0,
    };
}
