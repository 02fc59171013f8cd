// The plan of an edit, of one part or of several roots: what it writes and what it appends.

pub mod edit;
pub mod fenced;
pub mod numbers;
