// Why an edit is refused: the causes, the tests that tell them of elements, and which of them comes first against a part and
// against a change in its place.

pub mod cause;
pub mod edit_fault;
pub mod first;
pub mod in_place;
pub mod part;
pub mod revise_cause;
pub mod revise_fault;
pub mod test;
