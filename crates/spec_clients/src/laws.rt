//! Laws of the work of clients, for the proofs of the crates above. Each is a function that does
//! nothing.
ghost use Rattle.std.specs.Prelude.{◌≡◌, ℕ, ◌*◌, ◌≤◌, List, [], ◌∷◌, ◌++◌, length, slice_get, Some};
ghost use Rattle.ts_core.specs.declared.flat.FlatGrammar.{FlatGrammar};
ghost use Rattle.ts_table.specs.declared.view.ParseTable.{ParseTable};
ghost use Rattle.ts_shelf.specs.declared.view.Knowledge.{Knowledge};
ghost use Rattle.ts_shelf.specs.Passes.{IsPass};
ghost use Rattle.ts_docs.specs.declared.parsed.ParsedText.{ParsedText as AnyVersion};
ghost use Rattle.ts_docs.specs.declared.parsed.Drafted.{Drafted as AnyDraft};
ghost use Rattle.ts_docs.specs.declared.parsed.Pages.{Pages as AnyBook};
ghost use Rattle.ts_docs.specs.Versions.{IsOfTable};
ghost use Rattle.ts_script.specs.declared.plan.Plan.{Plan as AnyPlan};
ghost use Rattle.ts_script.specs.declared.plan.ScriptStep.{ScriptStep as AnyStep};
ghost use Rattle.ts_replies.specs.declared.reply.Reply.{Reply as AnyReply};
ghost use Rattle.spec_history.specs.Replies.{document_of, most_looks};
ghost use Rattle.spec_history.specs.Histories.{History};
ghost use Rattle.spec_history.specs.Legal.{Legal};
ghost use Rattle.spec_clients.specs.Joined.{AreJoined, AreVersionsOf};
ghost use Rattle.spec_clients.specs.Next.{TakesThese, HasNoneOf, IsNextReply};
ghost use Rattle.spec_clients.specs.Served.{held_at, IsServed};

use spec_history::Finder;

/// Where each client was served rightly by what its passes know, all passes were joined and all
/// shelves were closed, the journals and the replies are lawful together, and each version has the
/// text of its number. No client met the end of a shelf's turns.
pub fn joined_work_is_lawful<F: Finder>(_finder: &F)
    ensures legal { (h : History) (table : ParseTable) (books : List AnyBook)
        (all : List (List (Knowledge AnyVersion AnyDraft)))
        → AreJoined (F.finds _finder.now) h table books all
        → Legal (F.finds _finder.now) h }
    ensures versions { (h : History) (table : ParseTable) (books : List AnyBook)
        (all : List (List (Knowledge AnyVersion AnyDraft)))
        → AreJoined (F.finds _finder.now) h table books all
        → AreVersionsOf h table books }
{}

/// A client that was served rightly is served so by one more right reply; on the other documents it
/// is then served as before; and turns that leave all entries as they were change nothing.
pub fn next_reply_is_served<F: Finder>(_finder: &F)
    ensures next { (plan : AnyPlan) (g : FlatGrammar) (opening : AnyVersion)
        (client document : ℕ) (steps : List AnyStep) (replies : List AnyReply)
        (old new : Knowledge AnyVersion AnyDraft) (turns : List ℕ) (s : AnyStep) (r : AnyReply)
        → IsServed (F.finds _finder.now) plan g opening client document steps replies old
        → IsPass IsOfTable old
        → slice_get steps (length replies) ≡ Some s → document_of s ≡ document
        → length new.taken ≤ length steps * most_looks
        → IsNextReply (F.finds _finder.now) plan g opening client (length replies) document
        (held_at document steps replies (length replies)) old new turns s r
        → IsServed (F.finds _finder.now) plan g opening client document steps (replies ++ r ∷ [])
        new }
    ensures elsewhere { (plan : AnyPlan) (g : FlatGrammar) (opening : AnyVersion)
        (client document : ℕ) (steps : List AnyStep) (replies : List AnyReply)
        (k : Knowledge AnyVersion AnyDraft) (s : AnyStep) (r : AnyReply)
        → IsServed (F.finds _finder.now) plan g opening client document steps replies k
        → slice_get steps (length replies) ≡ Some s → (document_of s ≡ document → ⊥)
        → IsServed (F.finds _finder.now) plan g opening client document steps (replies ++ r ∷ [])
        k }
    ensures idle { (plan : AnyPlan) (g : FlatGrammar) (opening : AnyVersion)
        (client document : ℕ) (steps : List AnyStep) (replies : List AnyReply)
        (old new : Knowledge AnyVersion AnyDraft) (turns : List ℕ)
        → IsServed (F.finds _finder.now) plan g opening client document steps replies old
        → IsPass IsOfTable old
        → TakesThese old new turns → HasNoneOf turns new.seen
        → length new.taken ≤ length steps * most_looks
        → IsServed (F.finds _finder.now) plan g opening client document steps replies new }
{}
