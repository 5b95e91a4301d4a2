//! The words of a row in; the bytes of a language file out. Between blanks stand
//!
//! - `7`, a symbol or another number of two bytes,
//! - `#7`, the number of four bytes of a list's count or a range's end,
//! - `+7` or `-7`, a precedence or a dynamic value,
//! - `'text'`, a text with its length,
//! - `$00ff`, bytes in hexadecimal,
//! - a name of the file's own words, for those words.
use crate::fault::RowFault;
use crate::row::{Row, Rows};
use std::alloc::Global;

/// The bytes that the words of a row stand for.
pub(crate) fn spelled(alloc: Global, rows: &Rows, row: &Row) -> Result<Vec<u8>, RowFault> {
    let mut bytes = Vec::new(alloc);
    for line in &row.file {
        for word in line.split_whitespace() {
            push_named(&mut bytes, alloc, rows, word)?;
        }
    }
    Ok(bytes)
}

/// A word, or the words that it names.
fn push_named(bytes: &mut Vec<u8>, alloc: Global, rows: &Rows, word: &str) -> Result<(), RowFault> {
    match rows.words.get(word) {
        Some(words) => {
            for part in words.split_whitespace() {
                push_word(bytes, alloc, part)?;
            }
            Ok(())
        }
        None => push_word(bytes, alloc, word),
    }
}

fn push_word(bytes: &mut Vec<u8>, alloc: Global, word: &str) -> Result<(), RowFault> {
    if let Some(digits) = word.strip_prefix('$') {
        let decoded = hex::decode(alloc, digits).map_err(|_| RowFault::Word)?;
        bytes.extend_from_slice(decoded.as_slice())?;
        return Ok(());
    }
    if let Some(text) = word.strip_prefix('\'') {
        return push_text(bytes, text.trim_end_matches('\''));
    }
    if let Some(digits) = word.strip_prefix('#') {
        let number: u32 = digits.parse().map_err(|_| RowFault::Word)?;
        bytes.extend_from_slice(&number.to_be_bytes())?;
        return Ok(());
    }
    push_number(bytes, word)
}

fn push_text(bytes: &mut Vec<u8>, text: &str) -> Result<(), RowFault> {
    let length = u32::try_from(text.len()).map_err(|_| RowFault::Large)?;
    bytes.extend_from_slice(&length.to_be_bytes())?;
    bytes.extend_from_slice(text.as_bytes())?;
    Ok(())
}

/// A number of four bytes where it has a sign, and else of two.
fn push_number(bytes: &mut Vec<u8>, word: &str) -> Result<(), RowFault> {
    if word.starts_with('+') || word.starts_with('-') {
        let number: i32 = word.parse().map_err(|_| RowFault::Word)?;
        bytes.extend_from_slice(&number.to_be_bytes())?;
        return Ok(());
    }
    let number: u16 = word.parse().map_err(|_| RowFault::Word)?;
    bytes.extend_from_slice(&number.to_be_bytes())?;
    Ok(())
}
