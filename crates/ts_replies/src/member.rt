//! A name and a value in; a member of an object sent.
ghost use Rattle.std.specs.Prelude.{◌≡◌, OnOk};
ghost use Rattle.serde.specs.Event.{Log};
ghost use Rattle.serde_json.specs.Data.{Members, no_members};
ghost use Rattle.serde_json.specs.Events.{SendsMembers};
ghost use Rattle.ts_replies.specs.Replies.{with_number, with_reply, step_members, turn_members};

use serde::Serializer;

/// Sends a member that is a number.
pub(crate) fn send_number<S: Serializer>(
    name: &str,
    number: u64,
    out: &mut S,
) -> Result<(), S::Error>
    ensures { OnOk result ((after : Members) (end : Log)
        → SendsMembers after (S.written out.new) end
        → SendsMembers (with_number name.now number after) (S.written out.old) end) }
{
    out.key(name)?;
    out.u64(number)
}

/// The same for a shorter number.
pub(crate) fn send_short<S: Serializer>(
    name: &str,
    number: u32,
    out: &mut S,
) -> Result<(), S::Error>
    ensures { OnOk result ((after : Members) (end : Log)
        → SendsMembers after (S.written out.new) end
        → SendsMembers (with_number name.now number after) (S.written out.old) end) }
{
    out.key(name)?;
    out.u64(u64::from(number))
}

/// Sends the word of a reply.
pub(crate) fn send_word<S: Serializer>(word: &str, out: &mut S) -> Result<(), S::Error>
    ensures { OnOk result ((after : Members) (end : Log)
        → SendsMembers after (S.written out.new) end
        → SendsMembers (with_reply word.now after) (S.written out.old) end) }
{
    out.key("reply")?;
    out.str(word)
}

/// Sends the step and the version, which are the last members.
pub(crate) fn send_step<S: Serializer>(step: u32, version: u32, out: &mut S) -> Result<(), S::Error>
    ensures { OnOk result ((end : Log) → SendsMembers no_members (S.written out.new) end
        → SendsMembers (step_members step version) (S.written out.old) end) }
{
    send_short("step", step, out)?;
    send_short("version", version, out)?;
    Ok(())
}

/// Sends the step, the turn and the version, which are the last members.
pub(crate) fn send_turn<S: Serializer>(
    step: u32,
    turn: u64,
    version: u32,
    out: &mut S,
) -> Result<(), S::Error>
    ensures { OnOk result ((end : Log) → SendsMembers no_members (S.written out.new) end
        → SendsMembers (turn_members step turn version) (S.written out.old) end) }
{
    send_short("step", step, out)?;
    send_number("turn", turn, out)?;
    send_short("version", version, out)?;
    Ok(())
}
