//! The places of a text that are tried: the text from a place on goes in, and the token behind its
//! separators comes out.
ghost use Rattle.std.specs.Prelude.{◌≡◌, ◌≤◌, ◌<◌, ◌+◌, ◌^◌, ◌↔◌, ℕ, true, Some, None, max, length, IsTrue};
ghost use Rattle.std.specs.List.{Contains};
ghost use Rattle.ts_core.specs.declared.flat.FlatGrammar.{FlatGrammar as AnyGrammar};
ghost use Rattle.spec_lexing.specs.Lexing.{end_symbol};
ghost use Rattle.ts_automata.specs.Walks.{walk_room};
ghost use Rattle.ts_lexer.specs.Passed.{IsPassed, IsWithinText};
ghost use Rattle.ts_lexer.specs.Ways.{IsReadyFor};

use crate::ahead::RowPair;
use crate::scanned::Match;
use crate::view::View;
use crate::walking::scan;
use crate::ways::Way;
use ts_automata::Walk;
use ts_core::Symbol;
use ts_text::Rest;

/// What stands behind the separators.
#[derive(Clone, Copy, Debug)]
pub(crate) struct Passed {
    pub found: Option<Match>,
    /// How many bytes of separators were passed.
    pub pad: usize,
    /// How many bytes were looked at, where the end of the text counts as one.
    pub extent: usize,
}

/// Whether the end of the text is among the valid tokens.
fn has_end(valid: &[Symbol]) -> bool
    ensures { IsTrue result ↔ Contains valid.now end_symbol }
{
    valid.iter().any(|symbol| symbol.0 == 0)
}

/// Whether the text ends here, and its end is valid.
fn at_end(rest: &Rest<'_>, valid: &[Symbol]) -> bool
    ensures { IsTrue result ↔ ((length rest.now ≡ 0) × Contains valid.now end_symbol) }
{
    if rest.is_empty() {
        return has_end(valid);
    }
    false
}

/// The farther of two ends.
pub(crate) fn farther(extent: usize, pad: usize, reach: usize) -> usize
    requires { pad + reach < 2 ^ 64 }
    ensures { result ≡ max extent (pad + reach) }
{
    extent.max(pad + reach)
}

/// Passes separators until a valid token stands at a place, or none is left.
pub(crate) fn pass(
    way: &Way,
    pair: Option<RowPair>,
    view: &View,
    walk: &mut Walk,
    text: &Rest<'_>,
    valid: &[Symbol],
) -> Passed
    requires size { length text.now < 2 ^ 32 }
    requires ready { (g : AnyGrammar)
        × IsReadyFor g valid.now way.now view.now pair (walk_room walk.old) }
    ensures room { walk_room walk.new ≡ walk_room walk.old }
    ensures within { IsWithinText (length text.now) result }
    ensures passed { (g : AnyGrammar)
        → IsReadyFor g valid.now way.now view.now pair (walk_room walk.old)
        → IsPassed g valid.now text.now result }
{
    let mut rest = text.copied();
    let mut first = true;
    let mut pad: usize = 0;
    let mut extent: usize = 0;
    'passing: loop {
        let here = scan(way, pair, view, walk, first, &rest);
        extent = farther(extent, pad, here.reach);
        match here.best {
            Some(found) => {
                return Passed {
                    found: Some(found),
                    pad,
                    extent,
                };
            }
            None => {}
        }
        let ended = at_end(&rest, valid);
        if ended {
            let end = Match {
                symbol: Symbol(0),
                size: 0,
            };
            return Passed {
                found: Some(end),
                pad,
                extent,
            };
        }
        if here.separator == 0 {
            return Passed {
                found: None,
                pad,
                extent,
            };
        }
        rest = rest.past(here.separator);
        pad += here.separator;
        first = false;
    }
}
