//! An outcome in; the members that tell it out, sent one by one: no value of them all is built
//! beside the line.
ghost use Rattle.std.specs.Prelude.{◌≡◌, OnOk, codes, map};
ghost use Rattle.serde.specs.Event.{Log};
ghost use Rattle.serde_json.specs.Data.{Members, member, no_members, array, string};
ghost use Rattle.serde_json.specs.Events.{SendsValue, SendsMembers, members_len};
ghost use Rattle.spec_output.specs.Lines.{numeral, text_list};
ghost use Rattle.spec_output.specs.Outcomes.{node_data, node_items, outcome_members};

use serde::Serializer;
use spec_output::ShownOutcome;
use ts_core::{Shown, Str};

/// How many members tell an outcome.
pub fn members_in(outcome: &ShownOutcome) -> usize
    ensures count { result ≡ members_len (outcome_members outcome.now no_members) }
{
    match outcome {
        ShownOutcome::Tree(_) | ShownOutcome::Stuck(_) => 2,
        ShownOutcome::Deep => 1,
    }
}

/// Sends the members that tell an outcome. Those before them in byte order are sent, and the others
/// come after.
///
/// # Errors
///
/// Those of `out`.
pub fn send_outcome<S: Serializer>(outcome: &ShownOutcome, out: &mut S) -> Result<(), S::Error>
    ensures members { OnOk result ((after : Members) (end : Log)
        → SendsMembers after (S.written out.new) end
        → SendsMembers (outcome_members outcome.now after) (S.written out.old) end) }
{
    match outcome {
        ShownOutcome::Tree(nodes) => send_tree(nodes.as_slice(), out),
        ShownOutcome::Stuck(place) => send_stuck(*place, out),
        ShownOutcome::Deep => send_word("deep", out),
    }
}

fn send_tree<S: Serializer>(nodes: &[Shown], out: &mut S) -> Result<(), S::Error>
    ensures { OnOk result ((after : Members) (end : Log)
        → SendsMembers after (S.written out.new) end
        → SendsMembers (member (codes "nodes") (array (node_items nodes.now))
        (member (codes "outcome") (string (codes "tree")) after)) (S.written out.old) end) }
{
    out.key("nodes")?;
    send_nodes(nodes, out)?;
    send_word("tree", out)
}

fn send_stuck<S: Serializer>(place: u32, out: &mut S) -> Result<(), S::Error>
    ensures { OnOk result ((after : Members) (end : Log)
        → SendsMembers after (S.written out.new) end
        → SendsMembers (member (codes "outcome") (string (codes "stuck"))
        (member (codes "place") (numeral place) after)) (S.written out.old) end) }
{
    send_word("stuck", out)?;
    out.key("place")?;
    out.u64(u64::from(place))
}

/// Sends the word of an outcome.
fn send_word<S: Serializer>(word: &str, out: &mut S) -> Result<(), S::Error>
    ensures { OnOk result ((after : Members) (end : Log)
        → SendsMembers after (S.written out.new) end
        → SendsMembers (member (codes "outcome") (string word.now) after)
        (S.written out.old) end) }
{
    out.key("outcome")?;
    out.str(word)
}

fn send_nodes<S: Serializer>(nodes: &[Shown], out: &mut S) -> Result<(), S::Error>
    ensures { OnOk result (SendsValue (array (node_items nodes.now))
        (S.written out.old) (S.written out.new)) }
{
    out.begin_seq(Some(nodes.len()))?;
    for node in nodes {
        send_node(node, out)?;
    }
    out.end_seq()
}

fn send_node<S: Serializer>(node: &Shown, out: &mut S) -> Result<(), S::Error>
    ensures { OnOk result (SendsValue (node_data node.now)
        (S.written out.old) (S.written out.new)) }
{
    out.begin_seq(Some(8))?;
    out.u64(u64::from(node.depth))?;
    out.str(node.name.text())?;
    out.bool(node.named)?;
    send_texts(node.fields.as_slice(), out)?;
    out.u64(u64::from(node.start))?;
    out.u64(u64::from(node.end))?;
    out.u64(u64::from(node.row))?;
    out.u64(u64::from(node.column))?;
    out.end_seq()
}

fn send_texts<S: Serializer>(texts: &[Str], out: &mut S) -> Result<(), S::Error>
    ensures { OnOk result (SendsValue (text_list texts.now)
        (S.written out.old) (S.written out.new)) }
{
    out.begin_seq(Some(texts.len()))?;
    for text in texts {
        out.str(text.text())?;
    }
    out.end_seq()
}
