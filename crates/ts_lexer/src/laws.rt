//! Laws of lexing for a state, each a function without a body: what other crates may use of them.
ghost use Rattle.std.specs.Prelude.{◌≡◌, ℕ, List};
ghost use Rattle.ts_base.specs.Bytes.{Bytes};
ghost use Rattle.ts_core.specs.declared.flat.FlatGrammar.{FlatGrammar as AnyGrammar};
ghost use Rattle.ts_core.specs.declared.symbol.Symbol.{Symbol as AnySymbol};
ghost use Rattle.ts_table.specs.declared.view.ParseTable.{ParseTable};
ghost use Rattle.spec_lexing.specs.Lexing.{Found, Lex};
ghost use Rattle.spec_lexing.specs.Seen.{Seen};
ghost use Rattle.ts_lexer.specs.declared.lexed.Lexed.{Lexed as AnyLexed};
ghost use Rattle.ts_lexer.specs.Answers.{IsLexedAt};
ghost use Rattle.ts_lexer.specs.States.{AreValid, HaveSameSymbols};

use spec_lexing::one_answer;

/// Lexing rests on which tokens are valid, and on nothing else of their list.
pub fn same_tokens()
    ensures lex { (g : AnyGrammar) (valid other : List AnySymbol) (rest : Bytes) (f : Found)
        → HaveSameSymbols valid other → Lex g valid rest f → Lex g other rest f }
    ensures seen { (g : AnyGrammar) (valid other : List AnySymbol) (rest : Bytes) (n : ℕ)
        → HaveSameSymbols valid other → Seen g valid rest n → Seen g other rest n }
{}

/// For a state there is one answer at a place of a text.
pub fn one_lexed()
    ensures { (t : ParseTable) (state : ℕ) (text : Bytes) (place : ℕ) (a b : AnyLexed)
        → IsLexedAt t state text place a → IsLexedAt t state text place b → a ≡ b }
{
    one_answer();
    same_tokens();
}

/// Each state has a list of its valid tokens.
pub fn tokens_of_states()
    ensures { (t : ParseTable) (state : ℕ)
        → (valid : List AnySymbol) × AreValid t state valid }
{}
