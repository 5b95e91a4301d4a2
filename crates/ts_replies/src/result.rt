//! What queries come to in; the values that tell it sent, one by one.
ghost use Rattle.std.specs.Prelude.{◌≡◌, OnOk, map};
ghost use Rattle.serde_json.specs.Data.{array};
ghost use Rattle.serde_json.specs.Events.{SendsValue};
ghost use Rattle.serde_json.specs.View.{items_of};
ghost use Rattle.ts_replies.specs.Replies.{capture_data, match_data, result_data};

use crate::reply::{ShownCapture, ShownMatch, ShownResult};
use serde::Serializer;

/// Sends what each query comes to.
pub(crate) fn send_results<S: Serializer>(
    results: &[ShownResult],
    out: &mut S,
) -> Result<(), S::Error>
    ensures { OnOk result (SendsValue (array (items_of (map result_data results.now)))
        (S.written out.old) (S.written out.new)) }
{
    out.begin_seq(Some(results.len()))?;
    for asked in results {
        send_result(asked, out)?;
    }
    out.end_seq()
}

fn send_result<S: Serializer>(asked: &ShownResult, out: &mut S) -> Result<(), S::Error>
    ensures { OnOk result (SendsValue (result_data asked.now)
        (S.written out.old) (S.written out.new)) }
{
    match asked {
        ShownResult::Many => out.str("many"),
        ShownResult::Found(matches) => send_matches(matches.as_slice(), out),
    }
}

fn send_matches<S: Serializer>(matches: &[ShownMatch], out: &mut S) -> Result<(), S::Error>
    ensures { OnOk result (SendsValue (array (items_of (map match_data matches.now)))
        (S.written out.old) (S.written out.new)) }
{
    out.begin_seq(Some(matches.len()))?;
    for found in matches {
        send_match(found, out)?;
    }
    out.end_seq()
}

fn send_match<S: Serializer>(found: &ShownMatch, out: &mut S) -> Result<(), S::Error>
    ensures { OnOk result (SendsValue (match_data found.now)
        (S.written out.old) (S.written out.new)) }
{
    out.begin_seq(Some(2))?;
    out.u64(u64::from(found.pattern))?;
    send_captures(found.captures.as_slice(), out)?;
    out.end_seq()
}

fn send_captures<S: Serializer>(captures: &[ShownCapture], out: &mut S) -> Result<(), S::Error>
    ensures { OnOk result (SendsValue (array (items_of (map capture_data captures.now)))
        (S.written out.old) (S.written out.new)) }
{
    out.begin_seq(Some(captures.len()))?;
    for capture in captures {
        send_capture(capture, out)?;
    }
    out.end_seq()
}

fn send_capture<S: Serializer>(capture: &ShownCapture, out: &mut S) -> Result<(), S::Error>
    ensures { OnOk result (SendsValue (capture_data capture.now)
        (S.written out.old) (S.written out.new)) }
{
    out.begin_seq(Some(3))?;
    out.str(capture.name.text())?;
    out.u64(u64::from(capture.start))?;
    out.u64(u64::from(capture.end))?;
    out.end_seq()
}
