//! Cases of `rc4_stream`: keys and texts in hex.

ghost use Rattle.std.specs.Prelude.{◌≡◌, ◌+◌, ◌≤◌, length};

use case_words::{bytes, no_case, size, text, word};
use rc4_stream::Rc4;
use std::alloc::Global;

/// `apply KEY USED TEXT`: what the stream of the key makes of a text, after as many bytes of it have been used. The key
/// has 1 to 256 bytes, and the text and what is used before it at most 65,536 each.
fn apply(alloc: Global, words: &[&str]) -> anyhow::Result<String> {
    let key = bytes(alloc, word(words, 1))?;
    let used = size(word(words, 2))?;
    let mut bytes = bytes(alloc, word(words, 3))?;
    if key.is_empty() || key.len() > 256 || used > 65536 || bytes.len() > 65536 {
        return no_case(alloc);
    }
    let mut before = vec![in alloc; 0u8; used]?;
    let mut stream = Rc4::new(&key);
    stream.apply(&mut before);
    stream.apply(&mut bytes);
    text(alloc, &bytes)
}

/// `twice KEY AT TEXT`: the same from the stream's begin, of the text's part before a place and of the part after it,
/// one after the other.
fn twice(alloc: Global, words: &[&str]) -> anyhow::Result<String> {
    let key = bytes(alloc, word(words, 1))?;
    let at = size(word(words, 2))?;
    let mut bytes = bytes(alloc, word(words, 3))?;
    if key.is_empty() || key.len() > 256 || at > bytes.len() || bytes.len() > 65536 {
        return no_case(alloc);
    }
    let mut stream = Rc4::new(&key);
    stream.apply(&mut bytes[..at]);
    stream.apply(&mut bytes[at..]);
    text(alloc, &bytes)
}

/// What an operation gives.
pub(crate) fn answer(alloc: Global, operation: &str, words: &[&str]) -> anyhow::Result<String> {
    match operation {
        "apply" => apply(alloc, words),
        "twice" => twice(alloc, words),
        _ => no_case(alloc),
    }
}
