// What an edit puts into the live elements of a part, or into the copies of them, and into the headers above it.

pub mod headers;
pub mod live;
