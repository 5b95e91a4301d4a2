//! A file of a row in, as its bytes or as the rules of a grammar; its bytes out.
use crate::content::Content;
use crate::fault::RowFault;
use crate::notation::grammar_of;
use serde::Deserialize;
use std::alloc::Global;
use std::str;

/// What one file holds: a grammar by its rules in the short notation, or any bytes.
#[derive(Drop, Deserialize)]
#[serde(untagged)]
pub(crate) enum Held {
    Grammar {
        rules: Content,
        #[serde(default)]
        members: String,
    },
    Bytes(Content),
}

impl Held {
    /// The file's bytes.
    pub(crate) fn bytes(&self, alloc: Global) -> Result<Vec<u8>, RowFault> {
        match self {
            Held::Grammar { rules, members } => {
                let bytes = rules.bytes(alloc)?;
                let rules = str::from_utf8(bytes.as_slice()).map_err(|_| RowFault::Rules)?;
                let file = grammar_of(alloc, members.as_str(), rules)?;
                Ok(Vec::from_slice(alloc, file.as_bytes())?)
            }
            Held::Bytes(content) => content.bytes(alloc),
        }
    }
}
