mod causes;
mod findings;
mod items;
mod listings;
mod selected;
mod trees;

use sample_elements::{END, drawing};
use std::alloc::{AllocError, Global};

// A file of two dimensions: a TCB, these elements, and the mark that ends them.
fn file(alloc: Global, elements: &[&[u8]]) -> Result<Vec<u8>, AllocError> {
    let mut bytes = drawing(alloc, 0x08, 0, elements)?;
    bytes.extend_from_slice(&END)?;
    Ok(bytes)
}
