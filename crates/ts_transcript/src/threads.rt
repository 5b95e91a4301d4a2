//! Lines in; their bytes out, made by several threads.
ghost use Rattle.std.specs.Prelude.{◌≡◌, ◌≤◌, ◌<◌, ℕ, length, IfOk};
ghost use Rattle.std.specs.Global.{Vec as AnyVec};
ghost use Rattle.ts_transcript.specs.Told.{AreLines};
ghost use Rattle.ts_transcript.specs.Columns.{IsColumn, AreColumns, IsPieceAt, HasPieces, dealt_to};
ghost use Rattle.ts_transcript.specs.Batches.{AddsBytes, AddsPieces};

use crate::line::RunLine;
use crate::making::bytes_of;
use rayon::prelude::*;
use std::alloc::{AllocError, Global};
use std::thread::{self, Threads};
use ts_core::FlatGrammar;

/// How many bytes of texts the lines of a batch have at least, but for the last batch.
const BATCH_BYTES: u64 = 4_194_304;

/// How many columns there are. A thread has one or more of them, side by side.
const COLUMNS: usize = 64;

/// How many columns lie between those of two neighbours.
const STEP: usize = 8;

/// What was made of the first lines: the bytes of those that were added up, and then those of a
/// batch, by columns.
#[derive(Drop)]
struct Made {
    bytes: Vec<u8>,
    columns: Vec<Vec<Vec<u8>>>,
}

/// How many bytes of a text are shown for this line. What a reply shows stands in a version too.
fn text_len(line: &RunLine<'_>) -> u64 {
    match line {
        RunLine::Version { head: _, version } => u64::from(version.text().len()),
        RunLine::Reply {
            client: _,
            step: _,
            reply: _,
        } => 0,
    }
}

/// The bytes of these lines, made by several threads, in the order of the lines.
///
/// They are made in batches. While those of a batch are made, another thread adds those of the
/// batch before it to the whole, and lets them go. So what is kept beside the whole is two batches.
pub(crate) fn on_threads<R: Threads + Sync>(
    rt: &R,
    alloc: Global,
    grammar: &FlatGrammar,
    lines: &[RunLine<'_>],
) -> Result<Vec<u8>, AllocError>
    ensures { IfOk result (λ bytes. AreLines grammar.now lines.now bytes.items) }
{
    let (mut batch, mut rest) = lines.split_at(batch_len(lines));
    let mut made = Made {
        bytes: Vec::new(alloc),
        columns: all_columns(rt, alloc, grammar, batch)?,
    };
    while !rest.is_empty() {
        let (next, later) = rest.split_at(batch_len(rest));
        made = next_batch(rt, alloc, grammar, made, batch, next)?;
        batch = next;
        rest = later;
    }
    added(made.bytes, made.columns, batch.len())
}

/// How many of these lines are made at once: those until the texts of their versions have so many
/// bytes, and up to a multiple of `STEP`, so that the threads that share the columns have as many.
fn batch_len(lines: &[RunLine<'_>]) -> usize
    ensures within { result ≤ length lines.now }
    ensures some { 0 < length lines.now → 0 < result }
{
    let mut bytes: u64 = 0;
    for place in 0..lines.len() {
        bytes = bytes.saturating_add(text_len(&lines[place]));
        if BATCH_BYTES <= bytes && (place + 1) % STEP == 0 {
            return place + 1;
        }
    }
    lines.len()
}

/// Adds the lines of a batch to the bytes, while those of the next batch are made.
fn next_batch<R: Threads + Sync>(
    rt: &R,
    alloc: Global,
    grammar: &FlatGrammar,
    made: Made,
    batch: &[RunLine<'_>],
    next: &[RunLine<'_>],
) -> Result<Made, AllocError>
    requires { AreColumns grammar.now batch.now made.columns.items }
    ensures added { IfOk result (λ m.
        AddsBytes grammar.now batch.now made.bytes.items m.bytes.items) }
    ensures next { IfOk result (λ m. AreColumns grammar.now next.now m.columns.items) }
{
    let Made { bytes, columns } = made;
    let make = || -> Result<Vec<Vec<Vec<u8>>>, AllocError>
        ensures { IfOk result (λ columns. AreColumns grammar.entry.now next.entry.now
            columns.items) }
    { all_columns(rt, alloc, grammar, next) };
    let (bytes, columns) = added_beside(rt, bytes, columns, batch.len(), &make);
    Ok(Made {
        bytes: bytes?,
        columns: columns?,
    })
}

/// The bytes, and after them those of so many lines, which were made in these columns. They are
/// added on a thread of its own where one can be started, while this one does the other work.
fn added_beside<R: Threads, T, W: Fn() -> T>(
    rt: &R,
    bytes: Vec<u8>,
    made: Vec<Vec<Vec<u8>>>,
    count: usize,
    work: &W,
) -> (Result<Vec<u8>, AllocError>, T)
    requires pieces { HasPieces made.items count }
    requires work { W.pre work.now }
    ensures added { IfOk result.0 (λ all. AddsPieces made.items count bytes.items all.items) }
    ensures done { W.post work.now result.1 }
{
    thread::join(
        rt,
        move || -> Result<Vec<u8>, AllocError>
            requires { HasPieces made.items count }
            ensures { IfOk result (λ all. AddsPieces made.items count bytes.items all.items) }
        { added(bytes, made, count) },
        || work(),
    )
}

/// The bytes, and after them those of so many lines, which were made in these columns.
fn added(bytes: Vec<u8>, made: Vec<Vec<Vec<u8>>>, count: usize) -> Result<Vec<u8>, AllocError>
    requires { HasPieces made.items count }
    ensures { IfOk result (λ all. AddsPieces made.items count bytes.items all.items) }
{
    let mut out = bytes;
    let columns = made.as_slice();
    out.reserve_exact(len_of(columns))?;
    for place in 0..count {
        out.extend_from_slice(piece_at(columns, place))?;
    }
    Ok(out)
}

/// The bytes of each line, by columns.
fn all_columns<R: Threads + Sync>(
    rt: &R,
    alloc: Global,
    grammar: &FlatGrammar,
    lines: &[RunLine<'_>],
) -> Result<Vec<Vec<Vec<u8>>>, AllocError>
    ensures { IfOk result (λ columns. AreColumns grammar.now lines.now columns.items) }
{
    (0..COLUMNS)
        .into_par_iter()
        .with_min_len(1)
        .map(
            |column: usize| -> Result<Vec<Vec<u8>>, AllocError>
                ensures { IfOk result (λ pieces. IsColumn grammar.entry.now lines.entry.now column
                    pieces.items) }
            { column_of(alloc, grammar, lines, column) },
        )
        .collect::<Result<Vec<Vec<Vec<u8>>>, AllocError>>(rt, alloc)?
}

/// The bytes of each line of a column, in their order.
fn column_of(
    alloc: Global,
    grammar: &FlatGrammar,
    lines: &[RunLine<'_>],
    column: usize,
) -> Result<Vec<Vec<u8>>, AllocError>
    ensures { IfOk result (λ pieces. IsColumn grammar.now lines.now column pieces.items) }
{
    let mut pieces = Vec::new(alloc);
    let mut place = dealt(column);
    while place < lines.len() {
        let bytes = bytes_of(alloc, grammar, &lines[place])?;
        pieces.push(bytes)?;
        place += COLUMNS;
    }
    Ok(pieces)
}

/// The column to which the line at this place of a row of columns is dealt, and the place of the
/// line that is dealt to this column. Neighbours go to columns that lie apart, and so to several
/// threads.
fn dealt(place: usize) -> usize
    ensures { result ≡ dealt_to place }
{
    place % STEP * STEP + place / STEP
}

/// The bytes of the line at a place.
fn piece_at(columns: &[Vec<Vec<u8>>], place: usize) -> &[u8]
    requires { (piece : AnyVec ℕ) × IsPieceAt columns.now place piece }
    ensures { (piece : AnyVec ℕ) → IsPieceAt columns.now place piece → result.now ≡ piece.items }
{
    let pieces = columns[dealt(place % COLUMNS)].as_slice();
    pieces[place / COLUMNS].as_slice()
}

/// How many bytes these are together.
fn len_of(columns: &[Vec<Vec<u8>>]) -> usize {
    let mut len: usize = 0;
    for pieces in columns {
        for piece in pieces.as_slice() {
            len = len.saturating_add(piece.len());
        }
    }
    len
}
