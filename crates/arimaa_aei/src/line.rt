//! Lines of a word and a text.
ghost use Rattle.std.specs.Prelude.{◌≡◌, IfOk};
ghost use Rattle.arimaa_aei.specs.Written.{with_text};

use std::alloc::{AllocError, Global};

/// A word, and after a space the text that follows it, if there is any.
pub fn word_with_text(alloc: Global, word: &[u8], text: &[u8]) -> Result<Vec<u8>, AllocError>
    ensures { IfOk result (λ line. line.items ≡ with_text word.now text.now) }
{
    let mut line = Vec::from_slice(alloc, word)?;
    if !text.is_empty() {
        line.push(b' ')?;
        line.extend_from_slice(text)?;
    }
    Ok(line)
}
