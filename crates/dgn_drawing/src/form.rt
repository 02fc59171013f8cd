ghost use Rattle.std.specs.Prelude.{◌≡◌, ◌<◌};
ghost use Rattle.dgn_drawing.specs.Forms.{form_of};

use dgn_layout::class;
use dgn_layout::types::Class;

/// Which body an element has, by its type.
#[derive(Clone, Copy, Debug, PartialEq, Eq)]
pub(crate) enum Form {
    /// Two points.
    Line,
    /// A count word and as many points.
    Points,
    /// An origin and characters.
    Text,
    /// A total and an origin.
    Node,
    /// A total, a name of two words and an origin.
    Cell,
    /// A total and a number word.
    Header,
    /// A display part alone.
    Plain,
    /// No display part either.
    Silent,
}

// Which body a type has.
#[tactic(auto, unfolding(crate::specs::Forms::form_of))]
pub(crate) fn form_of(kind: u8) -> Form
    requires { kind < 128 }
    ensures { result ≡ form_of kind }
{
    match class(kind) {
        Class::Vertices if kind == 3 => Form::Line,
        Class::Vertices => Form::Points,
        Class::Words => Form::Text,
        Class::Counted => match kind {
            2 => Form::Cell,
            7 => Form::Node,
            _ => Form::Header,
        },
        Class::Run | Class::Floating | Class::Boxed => Form::Plain,
        Class::Silent => Form::Silent,
    }
}
