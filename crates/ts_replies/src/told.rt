//! A reply to a step of a client in; its line out.
ghost use Rattle.std.specs.Prelude.{◌≡◌, ℕ, OnOk, IfOk, string_bytes, codes};
ghost use Rattle.serde.specs.Event.{Log};
ghost use Rattle.serde_json.specs.Data.{object, no_members};
ghost use Rattle.serde_json.specs.Events.{SendsValue, SendsMembers, members_len};
ghost use Rattle.serde_json.specs.Written.{compact_text};
ghost use Rattle.ts_replies.specs.Replies.{with_number, with_reply, step_members, turn_members, reply_members, reply_line};
ghost use Rattle.ts_replies.specs.declared.reply.Reply.TheVariants as variant;

use crate::line::ended;
use crate::member::{send_number, send_short, send_step, send_turn, send_word};
use crate::reply::{Reply, ShownResult};
use crate::result::send_results;
use serde::{Described, Serialize, Serializer};
use std::alloc::{AllocError, Global};
use ts_lines::{members_in, send_outcome};

/// A reply as an object.
#[derive(Clone, Copy)]
struct Told<'a> {
    client: u32,
    step: u32,
    reply: &'a Reply,
}

impl Described for Told<'_> {
    ghost writes = { λ told. SendsValue (object
        (with_number (codes "client") told.client (reply_members told.step told.reply.now))) };
}

impl Serialize for Told<'_> {
    fn serialize<S: Serializer>(&self, out: &mut S) -> Result<(), S::Error> {
        out.begin_map(Some(members_of(self.reply)))?;
        send_short("client", self.client, out)?;
        send_reply(self.step, self.reply, out)?;
        out.end_map()
    }
}

/// The line of the reply to a step of a client, both numbered from 0.
///
/// # Errors
///
/// `AllocError` where memory runs out.
pub fn print_reply(
    alloc: Global,
    client: u32,
    step: u32,
    reply: &Reply,
) -> Result<Vec<u8>, AllocError>
    ensures line { IfOk result (λ bytes. bytes.items ≡ reply_line client step reply.now) }
{
    ended(object_text(alloc, client, step, reply)?)
}

/// The object without its newline. The writer fails only where memory runs out.
fn object_text(alloc: Global, client: u32, step: u32, reply: &Reply) -> Result<String, AllocError>
    ensures { IfOk result (λ s. string_bytes s ≡ compact_text (object
        (with_number (codes "client") client (reply_members step reply.now)))) }
{
    match serde_json::to_string(
        alloc,
        &Told {
            client,
            step,
            reply,
        },
    ) {
        Ok(text) => Ok(text),
        Err(_) => Err(AllocError),
    }
}

/// How many members tell the reply.
fn members_of(reply: &Reply) -> usize
    ensures { (client step : ℕ) → result
        ≡ members_len (with_number (codes "client") client (reply_members step reply.now)) }
{
    match reply {
        Reply::Published {
            turn: _,
            version: _,
        }
        | Reply::Newer {
            turn: _,
            version: _,
        }
        | Reply::Look {
            turn: _,
            version: _,
        }
        | Reply::Await {
            turn: _,
            version: _,
        }
        | Reply::Late {
            turn: _,
            version: _,
        }
        | Reply::Size {
            size: _,
            version: _,
        }
        | Reply::Results {
            results: _,
            version: _,
        } => 5,
        Reply::Range { version: _ } | Reply::Memory { version: _ } => 4,
        Reply::Tree {
            outcome,
            version: _,
        }
        | Reply::Absent {
            outcome,
            version: _,
        } => { members_in(outcome) + 4 }
    }
}

fn send_reply<S: Serializer>(step: u32, reply: &Reply, out: &mut S) -> Result<(), S::Error>
    ensures { OnOk result ((end : Log) → SendsMembers no_members (S.written out.new) end
        → SendsMembers (reply_members step reply.now) (S.written out.old) end) }
{
    match reply {
        Reply::Published { turn, version } => in_turn("published", step, *turn, *version, out),
        Reply::Newer { turn, version } => in_turn("newer", step, *turn, *version, out),
        Reply::Look { turn, version } => in_turn("look", step, *turn, *version, out),
        Reply::Await { turn, version } => in_turn("await", step, *turn, *version, out),
        Reply::Late { turn, version } => in_turn("late", step, *turn, *version, out),
        Reply::Range { version } => at_once("range", step, *version, out),
        Reply::Size { size, version } => with_size(step, *size, *version, out),
        Reply::Memory { version } => at_once("memory", step, *version, out),
        Reply::Tree { outcome, version } => {
            send_outcome(outcome, out)?;
            at_once("tree", step, *version, out)?;
            Ok(())
        }
        Reply::Results { results, version } => {
            with_results(step, results.as_slice(), *version, out)
        }
        Reply::Absent { outcome, version } => {
            send_outcome(outcome, out)?;
            at_once("none", step, *version, out)?;
            Ok(())
        }
    }
}

/// Sends a reply that took a turn.
fn in_turn<S: Serializer>(
    word: &str,
    step: u32,
    turn: u64,
    version: u32,
    out: &mut S,
) -> Result<(), S::Error>
    ensures { OnOk result ((end : Log) → SendsMembers no_members (S.written out.new) end
        → SendsMembers (with_reply word.now (turn_members step turn version))
        (S.written out.old) end) }
{
    send_word(word, out)?;
    send_turn(step, turn, version, out)?;
    Ok(())
}

/// Sends a reply that took no turn.
fn at_once<S: Serializer>(word: &str, step: u32, version: u32, out: &mut S) -> Result<(), S::Error>
    ensures { OnOk result ((end : Log) → SendsMembers no_members (S.written out.new) end
        → SendsMembers (with_reply word.now (step_members step version))
        (S.written out.old) end) }
{
    send_word(word, out)?;
    send_step(step, version, out)?;
    Ok(())
}

fn with_size<S: Serializer>(step: u32, size: u64, version: u32, out: &mut S) -> Result<(), S::Error>
    ensures { OnOk result ((end : Log) → SendsMembers no_members (S.written out.new) end
        → SendsMembers (reply_members step (variant.Size size version)) (S.written out.old) end) }
{
    send_word("size", out)?;
    send_number("size", size, out)?;
    send_step(step, version, out)?;
    Ok(())
}

fn with_results<S: Serializer>(
    step: u32,
    results: &[ShownResult],
    version: u32,
    out: &mut S,
) -> Result<(), S::Error>
    ensures { OnOk result ((end : Log) → SendsMembers no_members (S.written out.new) end
        → SendsMembers (reply_members step (variant.Results results.now version))
        (S.written out.old) end) }
{
    send_word("results", out)?;
    out.key("results")?;
    send_results(results, out)?;
    send_step(step, version, out)?;
    Ok(())
}
