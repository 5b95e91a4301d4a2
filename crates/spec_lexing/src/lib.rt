//! What tokens are and how texts are split into them: words of regular expressions, matching of a
//! token at a place, lexing for a set of valid tokens, and what was looked at. Definitions with
//! their laws alone: no value goes in or out.
#![tactic(auto)]

mod laws;

pub use laws::{
    a_front_has_fronts, beginnings, every_word_is_a_front, fewer_tokens, one_answer,
    one_character_at_a_time, seen_decides, small_forms, something_is_seen, token_within,
};
