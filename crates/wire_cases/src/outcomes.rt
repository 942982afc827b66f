//! What comes of a value that is written.

use case_words::{long_text, refusal_text};
use std::alloc::Global;
use std::fmt::Debug;
use wire_base::Blob;

/// The answer to a value that may not be written.
pub(crate) fn not_to_be_written(alloc: Global) -> anyhow::Result<String> {
    Ok("not to be written".to_string(alloc)?)
}

/// Bytes that were written.
fn bytes_text(alloc: Global, bytes: &[u8]) -> anyhow::Result<String> {
    let text = long_text(alloc, bytes)?;
    Ok(format!(in alloc; "Ok({text})")?)
}

/// The bytes that were written, or the refusal.
pub(crate) fn written_text<E: Debug + Drop>(
    alloc: Global,
    outcome: Result<Blob, E>,
) -> anyhow::Result<String> {
    match outcome {
        Ok(bytes) => bytes_text(alloc, bytes.bytes()),
        Err(refused) => refusal_text(alloc, refused),
    }
}
