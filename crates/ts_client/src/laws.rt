//! A law of served steps, for the proofs of the crates above. It is a function that does nothing.
ghost use Rattle.std.specs.Prelude.{◌≡◌, ℕ, Some};
ghost use Rattle.ts_core.specs.declared.flat.FlatGrammar.{FlatGrammar as AnyGrammar};
ghost use Rattle.ts_docs.specs.declared.parsed.ParsedText.{ParsedText as AnyVersion};
ghost use Rattle.ts_script.specs.declared.plan.Plan.{Plan as AnyPlan};
ghost use Rattle.ts_script.specs.declared.plan.ScriptStep.{ScriptStep as AnyStep};
ghost use Rattle.ts_replies.specs.declared.reply.Reply.{Reply as AnyReply};
ghost use Rattle.spec_history.specs.Replies.{document_of};
ghost use Rattle.ts_client.specs.Nexts.{HoldsSeen, IsServedNext};
ghost use Rattle.ts_client.specs.Steps.{Standing, Serves};

use spec_history::Finder;

/// The reply to a step is a next one of its client, whatever other clients did on the shelf.
pub fn served_step_is_next_reply<F: Finder>(_finder: &F)
    ensures { (plan : AnyPlan) (g : AnyGrammar) (opening : AnyVersion)
        (client number document before : ℕ) (old new : Standing) (s : AnyStep) (r : AnyReply)
        → HoldsSeen g opening before old
        → Serves (F.finds _finder.now) client number old s r new
        → document_of s ≡ document → new.knows.opening ≡ Some opening
        → IsServedNext (F.finds _finder.now) plan g opening client number document before old s r
        new }
{}
