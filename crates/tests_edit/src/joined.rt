// Bytes in parts.

// Whether bytes are these parts, one behind the other, and no others.
pub(crate) fn are_joined(bytes: &[u8], parts: &[&[u8]]) -> bool {
    let mut at = 0usize;
    for part in parts {
        let end = at.saturating_add(part.len());
        if bytes.get(at..end) != Some(*part) {
            return false;
        }
        at = end;
    }
    bytes.len() == at
}
