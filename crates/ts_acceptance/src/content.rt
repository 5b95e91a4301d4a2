//! Short forms of bytes in, as rows have them; the bytes out.
use crate::fault::RowFault;
use serde::Deserialize;
use std::alloc::{AllocError, Global};

/// What a file holds or a run prints: one piece, or several one after another.
#[derive(Drop, Deserialize)]
#[serde(untagged)]
pub(crate) enum Content {
    One(Piece),
    Several(Vec<Piece>),
}

/// A text, bytes in hexadecimal, a text so many times, or a text once for each number from one to
/// before another. In the last of these `#` stands for the number and `^` for the next one.
#[derive(Drop, Deserialize)]
#[serde(untagged)]
pub(crate) enum Piece {
    Text(String),
    Hex { hex: String },
    Times { text: String, times: u32 },
    Series { text: String, from: u32, to: u32 },
}

impl Content {
    /// The bytes that this stands for.
    pub(crate) fn bytes(&self, alloc: Global) -> Result<Vec<u8>, RowFault> {
        let mut bytes = Vec::new(alloc);
        match self {
            Content::One(piece) => push_piece(&mut bytes, alloc, piece)?,
            Content::Several(pieces) => {
                for piece in pieces {
                    push_piece(&mut bytes, alloc, piece)?;
                }
            }
        }
        Ok(bytes)
    }
}

fn push_piece(bytes: &mut Vec<u8>, alloc: Global, piece: &Piece) -> Result<(), RowFault> {
    match piece {
        Piece::Text(text) => bytes.extend_from_slice(text.as_bytes())?,
        Piece::Hex { hex } => {
            let decoded = hex::decode(alloc, hex.as_str()).map_err(|_| RowFault::Hex)?;
            bytes.extend_from_slice(decoded.as_slice())?;
        }
        Piece::Times { text, times } => {
            for _ in 0..*times {
                bytes.extend_from_slice(text.as_bytes())?;
            }
        }
        Piece::Series { text, from, to } => {
            for number in *from..*to {
                push_numbered(bytes, alloc, text.as_str(), number)?;
            }
        }
    }
    Ok(())
}

/// The text, with the number in the place of each `#` and the next one in that of each `^`.
fn push_numbered(
    bytes: &mut Vec<u8>,
    alloc: Global,
    text: &str,
    number: u32,
) -> Result<(), AllocError> {
    for byte in text.as_bytes() {
        match *byte {
            b'#' => push_number(bytes, alloc, u64::from(number))?,
            b'^' => push_number(bytes, alloc, u64::from(number) + 1)?,
            other => bytes.push(other)?,
        }
    }
    Ok(())
}

fn push_number(bytes: &mut Vec<u8>, alloc: Global, number: u64) -> Result<(), AllocError> {
    let digits = format!(in alloc; "{number}")?;
    bytes.extend_from_slice(digits.as_bytes())?;
    Ok(())
}
