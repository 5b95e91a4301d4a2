//! Laws of the definitions, each a function without a body: what other crates may use of them.

ghost use Rattle.std.specs.Prelude.{◌≡◌, ℕ, ◌+◌, ◌<◌, ◌≤◌, List, [], ◌∷◌, ◌++◌, length, drop, encode_utf8, Option, map};
ghost use Rattle.std.specs.List.{Contains};
ghost use Rattle.std.specs.Char.{IsScalar};
ghost use Rattle.std.specs.Str.{IsUtf8};
ghost use Rattle.ts_core.specs.declared.re.Re.{Re as AnyRe};
ghost use Rattle.ts_base.specs.Bytes.{Bytes};
ghost use Rattle.ts_core.specs.declared.flat.FlatGrammar.{FlatGrammar as FlatGrammars};
ghost use Rattle.ts_core.specs.declared.symbol.Symbol.{Symbol as Symbols};
ghost use Rattle.spec_lexing.specs.Matching.{BeginsSpelled};
ghost use Rattle.spec_lexing.specs.Lexing.{Found, token, absent, Lex};
ghost use Rattle.spec_lexing.specs.Seen.{one_character, Seen, Agree};
ghost use Rattle.spec_lexing.specs.Words.{Regular, empty, one_of, repeat, all_of, any_of, regular_of, Word, Front};

use ts_core::Re;

/// The small form of each kind of regular expression.
pub fn small_forms()
    ensures empty_form { regular_of Re.Empty ≡ empty }
    ensures set { (ranges : List (ℕ × ℕ)) → regular_of (Re.Set ranges) ≡ one_of ranges }
    ensures cat { (parts : List AnyRe) → regular_of (Re.Cat parts) ≡ all_of (map regular_of parts) }
    ensures alt { (parts : List AnyRe) → regular_of (Re.Alt parts) ≡ any_of (map regular_of parts) }
    ensures repetition { (inner : AnyRe) (least : ℕ) (most : Option ℕ)
        → regular_of (Re.Repeat inner least most) ≡ repeat (regular_of inner) least most }
{}

/// A word is a front of itself, and the empty list is a front of everything.
pub fn every_word_is_a_front()
    ensures word { (p : Regular) (w : List ℕ) → Word p w → Front p w }
    ensures nothing { (p : Regular) → Front p [] }
{}

/// What begins a front is a front.
pub fn a_front_has_fronts()
    ensures { (p : Regular) (u v : List ℕ) → Front p (u ++ v) → Front p u }
{}

/// What begins a text: of two beginnings the shorter begins the longer, and one goes on with the
/// character that follows it.
pub fn beginnings()
    ensures nothing { (rest : Bytes) → BeginsSpelled rest [] 0 }
    ensures prefix { (rest : Bytes) (u w : List ℕ) (n m : ℕ) → BeginsSpelled rest u n
        → BeginsSpelled rest w m
        → n ≤ m
        → (v : List ℕ) × (w ≡ u ++ v) }
    ensures longer { (rest : Bytes) (u v : List ℕ) (c n m : ℕ) → BeginsSpelled rest u n
        → BeginsSpelled rest (u ++ c ∷ v) m → n < m }
    ensures more { (rest tail : Bytes) (u : List ℕ) (c n : ℕ) → IsScalar c → BeginsSpelled rest u n
        → drop n rest ≡ encode_utf8 c ++ tail
        → BeginsSpelled rest (u ++ c ∷ []) (n + length (encode_utf8 c)) }
    ensures follows { (rest tail : Bytes) (u v : List ℕ) (c d n m : ℕ) → BeginsSpelled rest u n
        → drop n rest ≡ encode_utf8 c ++ tail → BeginsSpelled rest (u ++ d ∷ v) m → d ≡ c }
    ensures within { (rest : Bytes) (u : List ℕ) (n : ℕ) → BeginsSpelled rest u n
        → n ≤ length rest }
{}

/// In UTF-8 the next character has as many bytes as its encoding.
pub fn one_character_at_a_time()
    ensures { (c : ℕ) (more : Bytes) → IsScalar c → IsUtf8 more
        → one_character (encode_utf8 c ++ more) ≡ length (encode_utf8 c) }
{}

/// Lexing comes to one thing, and looks at one number of bytes.
pub fn one_answer()
    ensures lex { (g : FlatGrammars) (valid : List Symbols) (rest : Bytes) (f h : Found)
        → Lex g valid rest f → Lex g valid rest h → f ≡ h }
    ensures seen { (g : FlatGrammars) (valid : List Symbols) (rest : Bytes) (n m : ℕ)
        → Seen g valid rest n → Seen g valid rest m → n ≡ m }
{}

/// Lexing comes to something: it cannot be that neither a token is found nor that there is none.
pub fn something_is_seen()
    ensures { (g : FlatGrammars) (valid : List Symbols) (rest : Bytes)
        → ((f : Found) → Lex g valid rest f → ⊥) → ⊥ }
{}

/// A text that has the same bytes where lexing looks is lexed the same: at any place of it, which
/// may be inside a character, and also where it is no UTF-8.
pub fn seen_decides()
    ensures { (g : FlatGrammars) (valid : List Symbols) (text other : Bytes) (place at n : ℕ)
        (f : Found)
        → IsUtf8 text → Seen g valid (drop place text) n
        → Agree n (drop place text) (drop at other)
        → Lex g valid (drop place text) f → Lex g valid (drop at other) f }
{}

/// A token and its pad end before what was looked at does, and inside the text.
pub fn token_within()
    ensures seen { (g : FlatGrammars) (valid : List Symbols) (rest : Bytes) (s : Symbols)
        (pad size n : ℕ)
        → Lex g valid rest (token s pad size) → Seen g valid rest n → pad + size < n }
    ensures text { (g : FlatGrammars) (valid : List Symbols) (rest : Bytes) (s : Symbols)
        (pad size : ℕ)
        → Lex g valid rest (token s pad size) → pad + size ≤ length rest }
    ensures absent { (g : FlatGrammars) (valid : List Symbols) (rest : Bytes) (place : ℕ)
        → Lex g valid rest (absent place) → place ≤ length rest }
{}

/// A token that is taken is taken too where fewer tokens are valid, if it is one of them.
pub fn fewer_tokens()
    ensures { (g : FlatGrammars) (valid fewer : List Symbols) (rest : Bytes) (s : Symbols)
        (pad size : ℕ)
        → ((t : Symbols) → Contains fewer t → Contains valid t) → Contains fewer s
        → Lex g valid rest (token s pad size) → Lex g fewer rest (token s pad size) }
{}
