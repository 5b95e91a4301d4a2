//! A row whose answer differs in; lines that say so out.
use crate::trial::{Answer, Trial};
use std::alloc::{AllocError, Global};
use std::str;

/// Prints the row's name, the answer that it wants and the one that its run gives.
pub(crate) fn print_trial<R: AllocGlobal + Print>(
    rt: &R,
    file: &str,
    trial: &Trial,
) -> anyhow::Result<()> {
    println!(rt; "{file}, {}:", trial.name)?;
    print_answer(rt, "wanted", &trial.wanted)?;
    print_answer(rt, "given", &trial.given)
}

fn print_answer<R: AllocGlobal + Print>(
    rt: &R,
    which: &str,
    answer: &Answer,
) -> anyhow::Result<()> {
    let bytes = shown(rt.alloc(), answer.bytes.as_slice())?;
    println!(rt; "  {which}: status {}, {bytes}", answer.status)?;
    Ok(())
}

/// The bytes as a text in quotes, or in hexadecimal where they are no text.
fn shown(alloc: Global, bytes: &[u8]) -> Result<String, AllocError> {
    match str::from_utf8(bytes) {
        Ok(text) => format!(in alloc; "{text:?}"),
        Err(_) => hex::encode(alloc, bytes),
    }
}
