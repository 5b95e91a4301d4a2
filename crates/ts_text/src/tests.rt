//! Texts, edits and points by examples: those of RFC 3629, and some worked out by hand.
use crate::{Edit, EditFault, MOST_BYTES, Part, PointWalk, Rest, Text, TextFault, apply};
use std::alloc::Global;
use std::process::Abort;
use std::test::Fail;
use ts_base::List;

/// Takes what several threads may share.
fn takes_shared<T: Send + Sync>(_value: &T) {}

/// The place of the byte where the bytes stop being UTF-8, for cases that are no text.
fn breaks_at(alloc: Global, bytes: &[u8]) -> Option<u32> {
    match Text::from_bytes(alloc, bytes) {
        Err(TextFault::Utf8(place)) => Some(place),
        Ok(_) | Err(TextFault::Size(_) | TextFault::Memory) => None,
    }
}

/// Whether a text has these characters.
fn has(text: &Text, want: &str) -> bool {
    let bytes = want.as_bytes();
    if text.len() as usize != bytes.len() {
        return false;
    }
    for place in 0..text.len() {
        if text.byte(place) != bytes[place as usize] {
            return false;
        }
    }
    true
}

/// The text that has some characters so many times.
fn repeated(alloc: Global, characters: &str, count: u32) -> Result<Text, TextFault> {
    let mut bytes = Vec::new(alloc);
    for _ in 0..count {
        if bytes.extend_from_slice(characters.as_bytes()).is_err() {
            return Err(TextFault::Memory);
        }
    }
    Text::from_bytes(alloc, bytes.as_slice())
}

/// The edit of one part.
fn one_part(alloc: Global, start: u32, end: u32, new: Text) -> Result<Edit, TextFault> {
    let mut parts = List::new(alloc);
    match parts.push(Part { start, end, new }) {
        Ok(()) => Ok(Edit { parts }),
        Err(_) => Err(TextFault::Memory),
    }
}

/// The text after an edit of `old`, whose places and new text are given.
fn edited(
    alloc: Global,
    old: &str,
    start: u32,
    end: u32,
    new: &str,
) -> Result<Result<Text, EditFault>, TextFault> {
    let text = Text::from_bytes(alloc, old.as_bytes())?;
    let new = Text::from_bytes(alloc, new.as_bytes())?;
    Ok(apply(alloc, &text, &one_part(alloc, start, end, new)?))
}

#[test]
fn reads_texts_and_gives_their_parts(rt: HostRuntime) -> Result<(), Fail> {
    let alloc = rt.alloc();
    let empty = Text::from_bytes(alloc, b"".as_slice())?;
    assert!(rt; empty.is_empty());
    assert!(rt; has(&empty, ""));
    let text = Text::from_bytes(alloc, "aé€😀z".as_bytes())?;
    assert_eq!(rt; text.len(), 11);
    assert!(rt; !text.is_empty());
    assert!(rt; has(&text, "aé€😀z"));
    assert_eq!(rt; text.byte(10), b'z');
    for (place, want) in [
        true, true, false, true, false, false, true, false, false, false, true, true, false,
    ]
    .iter()
    .enumerate()
    {
        assert_eq!(rt; text.is_boundary(place as u32), *want, "at {place}");
    }
    takes_shared(&text);
    assert!(rt; text.is_boundary(1) && text.is_boundary(6));
    assert_eq!(rt; text.slice(alloc, 1, 6)?.text(), "é€");
    Ok(())
}

// The cases of RFC 3629 and of the Unicode standard's table of well-formed byte sequences.
#[test]
fn refuses_what_is_no_utf8(rt: HostRuntime) {
    let alloc = rt.alloc();
    let cases: [(&[u8], u32); 14] = [
        (b"\xff", 0),
        (b"ab\xc3", 2),
        (b"ab\xe2", 2),
        (b"ab\xe2\x82", 2),
        (b"ab\xf0", 2),
        (b"ab\xf0\x9f", 2),
        (b"ab\xf0\x9f\x98", 2),
        (b"a\xc3\xa9\x80", 3),
        (b"\xc0\xaf", 0),
        (b"\xe0\x9f\xbf", 0),
        (b"\xed\xa0\x80", 0),
        (b"\xf0\x8f\xbf\xbf", 0),
        (b"\xf4\x90\x80\x80", 0),
        (b"\xc3(", 0),
    ];
    for (bytes, want) in cases {
        assert_eq!(rt; breaks_at(alloc, bytes), Some(want), "{bytes:?}");
    }
}

#[test]
fn takes_a_mebibyte_and_no_more(rt: HostRuntime) -> Result<(), Fail> {
    let alloc = rt.alloc();
    let mut bytes = vec![in alloc; b'a'; 1_048_575]?;
    let nearly = Text::from_bytes(alloc, bytes.as_slice())?;
    bytes.push(b'b')?;
    let full = Text::from_bytes(alloc, bytes.as_slice())?;
    assert_eq!(rt; full.len(), 1_048_576);
    bytes.push(0xff)?;
    assert_eq!(rt;
        Text::from_bytes(alloc, bytes.as_slice()),
        Err(TextFault::Size(1_048_577))
    );

    let end = nearly.len();
    let one = Text::from_bytes(alloc, b"b".as_slice())?;
    let grown = apply(alloc, &nearly, &one_part(alloc, end, end, one)?)?;
    assert!(rt; grown == full);
    let end = grown.len();
    let one = Text::from_bytes(alloc, b"c".as_slice())?;
    assert_eq!(rt;
        apply(alloc, &grown, &one_part(alloc, end, end, one)?),
        Err(EditFault::Size(1_048_577))
    );
    let two = Text::from_bytes(alloc, b"cd".as_slice())?;
    let swapped = apply(alloc, &grown, &one_part(alloc, 0, 2, two)?)?;
    assert_eq!(rt; swapped.len(), MOST_BYTES);
    Ok(())
}

#[test]
fn applies_edits(rt: HostRuntime) -> Result<(), Fail> {
    let alloc = rt.alloc();
    let cases = [
        ("abc", 0, 0, "x", "xabc"),
        ("abc", 3, 3, "x", "abcx"),
        ("abc", 1, 2, "", "ac"),
        ("abc", 0, 3, "xy", "xy"),
        ("abc", 0, 3, "", ""),
        ("abc", 1, 1, "", "abc"),
        ("", 0, 0, "é", "é"),
        ("aé€z", 1, 3, "😀", "a😀€z"),
    ];
    for (old, start, end, new, want) in cases {
        let after = edited(alloc, old, start, end, new)??;
        assert!(rt; has(&after, want), "{old:?} {start}..{end} {new:?}");
    }
    Ok(())
}

/// The text after an edit of several parts.
fn edited_in_parts(
    alloc: Global,
    old: &str,
    parts: &[(u32, u32, &str)],
) -> Result<Result<Text, EditFault>, TextFault> {
    let text = Text::from_bytes(alloc, old.as_bytes())?;
    let mut edit = Edit {
        parts: List::new(alloc),
    };
    for (start, end, new) in parts {
        let new = Text::from_bytes(alloc, new.as_bytes())?;
        if edit
            .parts
            .push(Part {
                start: *start,
                end: *end,
                new,
            })
            .is_err()
        {
            return Err(TextFault::Memory);
        }
    }
    Ok(apply(alloc, &text, &edit))
}

// All places are those of the text before the edit. Parts that meet are out of range.
#[test]
fn applies_several_parts_at_once(rt: HostRuntime) -> Result<(), Fail> {
    let alloc = rt.alloc();
    let both = edited_in_parts(alloc, "[1,2]", &[(1, 2, "33"), (3, 4, "null")])??;
    assert!(rt; has(&both, "[33,null]"));
    let meeting = edited_in_parts(alloc, "[1,2]", &[(1, 2, "33"), (2, 3, "")])?;
    assert_eq!(rt; meeting, Err(EditFault::Range));
    let none = edited_in_parts(alloc, "[1,2]", &[])?;
    assert_eq!(rt; none, Err(EditFault::Range));
    Ok(())
}

#[test]
fn refuses_ranges_outside_the_text_or_inside_a_character(rt: HostRuntime) -> Result<(), Fail> {
    let alloc = rt.alloc();
    for (old, start, end) in [
        ("é", 1, 1),
        ("é", 2, 1),
        ("é", 0, 3),
        ("é", 0, 1),
        ("€", 2, 3),
        ("ab", 2, 0),
        ("", 0, 1),
    ] {
        assert_eq!(rt;
            edited(alloc, old, start, end, "x")?,
            Err(EditFault::Range),
            "{old:?} {start}..{end}"
        );
    }
    Ok(())
}

// `a` newline `b` `é` newline newline `€` `x`: eleven bytes.
#[test]
fn gives_the_point_of_every_place(rt: HostRuntime) -> Result<(), Fail> {
    let alloc = rt.alloc();
    let text = Text::from_bytes(alloc, "a\nbé\n\n€x".as_bytes())?;
    let points = [
        (0, 0),
        (0, 1),
        (1, 0),
        (1, 1),
        (1, 2),
        (1, 3),
        (2, 0),
        (3, 0),
        (3, 1),
        (3, 2),
        (3, 3),
        (3, 4),
    ];
    assert_eq!(rt; text.len(), 11);
    let mut walk = PointWalk::new(&text);
    for (place, want) in points.iter().enumerate() {
        let place = place as u32;
        assert_eq!(rt; text.point(place), *want, "at {place}");
        assert_eq!(rt; walk.at(place), *want, "walking to {place}");
    }
    let mut leaps = PointWalk::new(&text);
    for (place, want) in [
        (5, (1, 3)),
        (5, (1, 3)),
        (11, (3, 4)),
        (2, (1, 0)),
        (0, (0, 0)),
        (7, (3, 0)),
    ] {
        assert_eq!(rt; leaps.at(place), want, "leaping to {place}");
    }
    Ok(())
}

// A piece has about 8,192 bytes, and a character of three bytes lies over that place.
#[test]
fn cuts_between_characters(rt: HostRuntime) -> Result<(), Fail> {
    let alloc = rt.alloc();
    let text = repeated(alloc, "€", 6_000)?;
    assert_eq!(rt; text.len(), 18_000);
    for place in 8_185..8_200 {
        assert_eq!(rt; text.is_boundary(place), place % 3 == 0, "at {place}");
        assert_eq!(rt; text.rest_at(place).is_some(), place % 3 == 0, "at {place}");
        assert_eq!(rt;
            text.byte(place),
            "€".as_bytes()[(place % 3) as usize],
            "at {place}"
        );
    }
    assert!(rt; text.is_boundary(8_181) && text.is_boundary(8_205));
    assert_eq!(rt; text.slice(alloc, 8_181, 8_205)?.text(), "€€€€€€€€");
    assert!(rt; text.is_boundary(18_000) && !text.is_boundary(18_003));
    Ok(())
}

/// How many bytes a rest has, and how many stretches of them, up to eight.
fn stretches(rest: Rest<'_>) -> (usize, u32) {
    let mut left = rest;
    let mut sum: usize = 0;
    for count in 0..8 {
        if left.is_empty() {
            return (sum, count);
        }
        let (stretch, later) = left.split();
        sum = sum.saturating_add(stretch.len());
        left = later;
    }
    (sum, 8)
}

#[test]
fn reads_on_over_the_end_of_a_piece(rt: HostRuntime) -> Result<(), Fail> {
    let alloc = rt.alloc();
    let one = repeated(alloc, "a", 8_192)?;
    let two = repeated(alloc, "a", 8_193)?;
    let three = repeated(alloc, "ab", 12_288)?;
    for (text, place, want) in [
        (&one, 0, (8_192, 1)),
        (&one, 8_192, (0, 0)),
        (&two, 0, (8_193, 2)),
        (&three, 8_190, (16_386, 3)),
        (&three, 24_576, (0, 0)),
    ] {
        match text.rest_at(place) {
            Some(rest) => assert_eq!(rt; stretches(rest), want, "at {place}"),
            None => assert!(rt; false, "nothing is left at {place}"),
        }
    }
    Ok(())
}

// The same bytes, cut at other places.
#[test]
fn compares_bytes_and_not_pieces(rt: HostRuntime) -> Result<(), Fail> {
    let alloc = rt.alloc();
    let plain = repeated(alloc, "a", 30_000)?;
    let shorter = repeated(alloc, "a", 29_990)?;
    let ten = Text::from_bytes(alloc, b"aaaaaaaaaa".as_slice())?;
    let grown = apply(alloc, &shorter, &one_part(alloc, 5_000, 5_000, ten)?)?;
    assert!(rt; grown == plain);
    assert!(rt; shorter != plain);
    let other = Text::from_bytes(alloc, b"b".as_slice())?;
    let changed = apply(alloc, &grown, &one_part(alloc, 29_999, 30_000, other)?)?;
    assert!(rt; changed != plain);
    assert_eq!(rt; changed.len(), 30_000);
    assert_eq!(rt; changed.byte(29_999), b'b');
    assert!(rt; changed.try_clone(alloc)? == changed);
    Ok(())
}

// What goes and what comes are whole pieces.
#[test]
fn replaces_whole_pieces(rt: HostRuntime) -> Result<(), Fail> {
    let alloc = rt.alloc();
    let old = repeated(alloc, "a", 24_576)?;
    let new = repeated(alloc, "b", 16_384)?;
    let after = apply(alloc, &old, &one_part(alloc, 8_192, 16_384, new)?)?;
    assert_eq!(rt; after.len(), 32_768);
    for (place, want) in [
        (8_191, b'a'),
        (8_192, b'b'),
        (24_575, b'b'),
        (24_576, b'a'),
        (32_767, b'a'),
    ] {
        assert_eq!(rt; after.byte(place), want, "at {place}");
    }
    let nothing = Text::from_bytes(alloc, b"".as_slice())?;
    let back = apply(alloc, &after, &one_part(alloc, 8_192, 24_576, nothing)?)?;
    assert!(rt; back == repeated(alloc, "a", 16_384)?);
    Ok(())
}

#[test]
fn gives_points_behind_the_first_piece(rt: HostRuntime) -> Result<(), Fail> {
    let alloc = rt.alloc();
    let text = repeated(alloc, "ab\n", 4_000)?;
    assert_eq!(rt; text.len(), 12_000);
    assert_eq!(rt; text.point(9_000), (3_000, 0));
    let mut walk = PointWalk::new(&text);
    assert_eq!(rt; walk.at(8_191), (2_730, 1));
    assert_eq!(rt; walk.at(8_192), (2_730, 2));
    assert_eq!(rt; walk.at(12_000), (4_000, 0));
    Ok(())
}
