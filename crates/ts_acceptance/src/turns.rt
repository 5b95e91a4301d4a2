//! Printed lines in; the same lines without the numbers of turns out.
use crate::fault::RowFault;
use std::alloc::Global;
use std::str;

/// What stands before the number of a turn.
const TURN: &str = "\"turn\":";

/// The lines, in which the number of each turn is left out. Bytes that are no text stay as they
/// are.
pub(crate) fn without_turns(alloc: Global, bytes: &[u8]) -> Result<Vec<u8>, RowFault> {
    let Ok(mut rest) = str::from_utf8(bytes) else {
        return Ok(Vec::from_slice(alloc, bytes)?);
    };
    let mut kept = Vec::with_capacity(alloc, bytes.len())?;
    for _ in 0..bytes.len() {
        let Some((before, after)) = rest.split_once(TURN) else {
            break;
        };
        kept.extend_from_slice(before.as_bytes())?;
        kept.extend_from_slice(TURN.as_bytes())?;
        rest = after.trim_start_matches(|c: char| c.is_ascii_digit());
    }
    kept.extend_from_slice(rest.as_bytes())?;
    Ok(kept)
}
