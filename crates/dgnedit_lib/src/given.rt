ghost use Rattle.std.specs.Prelude.{◌≡◌, map, string_bytes, IfOk};
ghost use Rattle.dgnedit_lib.specs.Words.{bytes_of_words, words_given};

use crate::word::Word;
use std::alloc::{AllocError, Global};

// The words as texts; none where one of them isn't UTF-8. An error says that there was no memory.
pub(crate) fn given_words(alloc: Global, words: &[Word<'_>]) -> Result<Vec<String>, AllocError>
    ensures { IfOk result (λ v. map string_bytes v.items ≡ words_given (bytes_of_words words.now)) }
{
    let mut texts = Vec::new(alloc);
    for word in words {
        let bytes = Vec::from_slice(alloc, word.bytes)?;
        match String::from_utf8(bytes) {
            Ok(text) => texts.push(text)?,
            Err(_) => return Ok(Vec::new(alloc)),
        }
    }
    Ok(texts)
}
