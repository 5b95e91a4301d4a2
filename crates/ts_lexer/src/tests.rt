//! Tokens in texts that are kept in several pieces. What is expected is reckoned from the bytes,
//! and says nothing of where the texts are cut.
use crate::engine::engine_of;
use crate::lexed::Lexed;
use indexmap::IndexSet;
use std::alloc::{AllocError, Global};
use std::test::Fail;
use ts_base::{Boxed, List, Str};
use ts_core::{FlatGrammar, Kind, Re, Symbol, TokenDef};
use ts_text::Text;

/// One character or more between two.
fn run_of(alloc: Global, first: char, last: char) -> Result<Re, AllocError> {
    let mut ranges = List::new(alloc);
    ranges.push((first as u32, last as u32))?;
    Ok(Re::Repeat(Boxed::new(alloc, Re::Set(ranges))?, 1, None))
}

/// A token with a name.
fn token(alloc: Global, name: &str, re: Re) -> Result<TokenDef, AllocError> {
    Ok(TokenDef {
        name: Str::from_text(alloc, name)?,
        kind: Kind::Named,
        re,
        prec: 0,
        literal: false,
        immediate: false,
        keyword: false,
    })
}

/// Words of small letters (1) and words of characters that are no ASCII (2), behind spaces, of
/// which one separator is a run.
fn words(alloc: Global) -> Result<FlatGrammar, AllocError> {
    let mut tokens = List::new(alloc);
    tokens.push(token(alloc, "low", run_of(alloc, 'a', 'z')?)?)?;
    tokens.push(token(alloc, "high", run_of(alloc, '\u{80}', '\u{10ffff}')?)?)?;
    let mut separators = List::new(alloc);
    separators.push(run_of(alloc, ' ', ' ')?)?;
    Ok(FlatGrammar {
        name: Str::from_text(alloc, "words")?,
        tokens,
        rules: List::new(alloc),
        separators,
        extras: List::new(alloc),
        word: None,
        fields: List::new(alloc),
        precs: List::new(alloc),
        conflicts: List::new(alloc),
        precedences: List::new(alloc),
        supertypes: List::new(alloc),
    })
}

/// The list of all tokens of `words`.
fn all_tokens(alloc: Global) -> Result<IndexSet<Vec<Symbol>>, AllocError> {
    let mut valid = Vec::new(alloc);
    for number in 0..3 {
        valid.push(Symbol(number))?;
    }
    let mut lists = IndexSet::new(alloc);
    lists.insert_full(valid)?;
    Ok(lists)
}

/// What stands at a place of a text among all tokens of `words`.
fn lexed(alloc: Global, text: &Text, place: u32) -> Result<Option<Lexed>, Fail> {
    let flat = words(alloc)?;
    if flat.tokens.len() > 9 {
        return Ok(None);
    }
    if flat.separators.len() > 9 {
        return Ok(None);
    }
    let automaton = ts_automata::build(alloc, &flat)?;
    let mut engine = engine_of(alloc, automaton, &flat, all_tokens(alloc)?)?;
    if engine.lists.is_empty() {
        return Ok(None);
    }
    if place > text.len() {
        return Ok(None);
    }
    Ok(Some(engine.lex(text, place, 0)))
}

/// The text of these parts, each so many times.
fn repeated(alloc: Global, parts: &[(&str, usize)]) -> Result<Text, Fail> {
    let mut bytes = Vec::new(alloc);
    for (part, times) in parts {
        for _ in 0..*times {
            bytes.extend_from_slice(part.as_bytes())?;
        }
    }
    Ok(Text::from_bytes(alloc, bytes.as_slice())?)
}

/// A token that was found.
fn found(number: u16, pad: u32, size: u32, extent: u32) -> Option<Lexed> {
    Some(Lexed::Token {
        token: Symbol(number),
        pad,
        size,
        extent,
    })
}

#[test]
fn a_token_has_more_bytes_than_a_piece(rt: HostRuntime) -> Result<(), Fail> {
    let alloc = rt.alloc();
    let low = repeated(alloc, &[("a", 20_000)])?;
    assert_eq!(rt; lexed(alloc, &low, 0)?, found(1, 0, 20_000, 20_001));
    assert_eq!(rt; lexed(alloc, &low, 19_999)?, found(1, 0, 1, 2));
    assert_eq!(rt; lexed(alloc, &low, 20_000)?, found(0, 0, 0, 1));
    // of 3 bytes each, so that some place where a piece might end lies inside one
    let high = repeated(alloc, &[("€", 6_000), ("a", 1)])?;
    assert_eq!(rt; lexed(alloc, &high, 0)?, found(2, 0, 18_000, 18_001));
    assert_eq!(rt; lexed(alloc, &high, 8_190)?, found(2, 0, 9_810, 9_811));
    Ok(())
}

#[test]
fn separators_have_more_bytes_than_a_piece(rt: HostRuntime) -> Result<(), Fail> {
    let alloc = rt.alloc();
    let text = repeated(alloc, &[(" ", 20_000), ("ab", 1), (" ", 20_000)])?;
    assert_eq!(rt; lexed(alloc, &text, 0)?, found(1, 20_000, 2, 20_003));
    assert_eq!(rt; lexed(alloc, &text, 20_002)?, found(0, 20_000, 0, 20_001));
    Ok(())
}

#[test]
fn a_token_may_lie_anywhere(rt: HostRuntime) -> Result<(), Fail> {
    let alloc = rt.alloc();
    for pad in 8_186..8_194 {
        let text = repeated(
            alloc,
            &[(" ", pad as usize), ("word", 1), ("é€😀", 1), (" ", 9_000)],
        )?;
        assert_eq!(rt;
            lexed(alloc, &text, 0)?,
            found(1, pad, 4, pad + 6),
            "at {pad}"
        );
        assert_eq!(rt; lexed(alloc, &text, pad)?, found(1, 0, 4, 6), "at {pad}");
        assert_eq!(rt;
            lexed(alloc, &text, pad + 4)?,
            found(2, 0, 9, 10),
            "behind {pad}"
        );
        assert_eq!(rt;
            lexed(alloc, &text, pad + 13)?,
            found(0, 9_000, 0, 9_001),
            "behind {pad}"
        );
    }
    Ok(())
}

#[test]
fn nothing_is_found_inside_a_character(rt: HostRuntime) -> Result<(), Fail> {
    let alloc = rt.alloc();
    let text = repeated(alloc, &[("€", 6_000)])?;
    for place in 8_180..8_200 {
        let left = (3 - place % 3) % 3;
        let want = if left == 0 {
            found(2, 0, 18_000 - place, 18_001 - place)
        } else {
            Some(Lexed::Absent {
                place,
                extent: left,
            })
        };
        assert_eq!(rt; lexed(alloc, &text, place)?, want, "at {place}");
    }
    Ok(())
}
