//! Why a file stands for no grammar in normal form, and why a grammar has no parse table.
use std::alloc::AllocError;
use thiserror::Error;
use ts_core::{FlatGrammar, List, Symbol, Unfit};
use ts_grammar_json::GFault;
use ts_langfile::LangFault;
use ts_normalise::NFault;
use ts_ojson::OFault;

/// Why a file stands for no grammar in normal form. The faults inside are never their `Memory`.
#[derive(Debug, Error, Drop)]
pub enum GrammarFault {
    /// The file is no language file, and has more than 4,194,304 bytes.
    #[error("the grammar file is too large")]
    Large,
    /// The grammar file is no JSON text.
    #[error("the grammar file is no JSON")]
    Json(OFault),
    /// The JSON value is no grammar.
    #[error("the grammar file has not the form of one")]
    Form(GFault),
    /// The grammar has no normal form that can be used.
    #[error("the grammar has no normal form")]
    Normal(NFault),
    /// A field of the language file is wrong, or bytes follow its grammar.
    #[error("the language file can't be read")]
    Language(LangFault),
    /// The fields of the language file are right, but its grammar is not fit for use.
    #[error("the grammar of the language file is not fit")]
    Misfit { grammar: FlatGrammar, cause: Unfit },
    /// Memory ran out.
    #[error("out of memory")]
    Memory,
}

impl From<AllocError> for GrammarFault {
    ghost use Rattle.std.specs.Prelude.{◌≡◌};
    ghost use Rattle.ts_front.specs.declared.fault.GrammarFault.TheVariants.{Memory};

    ghost from_gives = { λ _ e. e ≡ Memory };

    fn from(_: AllocError) -> GrammarFault {
        GrammarFault::Memory
    }
}

impl From<OFault> for GrammarFault {
    ghost use Rattle.std.specs.Prelude.{◌≡◌};
    ghost use Rattle.ts_front.specs.Gives.{json_fault};

    ghost from_gives = { λ cause e. e ≡ json_fault cause };

    fn from(cause: OFault) -> GrammarFault {
        match cause {
            OFault::Memory => GrammarFault::Memory,
            OFault::Syntax(_) | OFault::Utf8(_) | OFault::Deep(_) | OFault::Duplicate(_) =>
                GrammarFault::Json(cause),
        }
    }
}

impl From<GFault> for GrammarFault {
    ghost use Rattle.std.specs.Prelude.{◌≡◌};
    ghost use Rattle.ts_front.specs.Gives.{form_fault};

    ghost from_gives = { λ cause e. e ≡ form_fault cause };

    fn from(cause: GFault) -> GrammarFault {
        match cause {
            GFault::Memory => GrammarFault::Memory,
            GFault::Missing(_)
            | GFault::Wrong(_)
            | GFault::UnknownType(_)
            | GFault::External
            | GFault::Reserved
            | GFault::Limit(_) => GrammarFault::Form(cause),
        }
    }
}

impl From<NFault> for GrammarFault {
    ghost use Rattle.std.specs.Prelude.{◌≡◌};
    ghost use Rattle.ts_front.specs.Gives.{normal_fault};

    ghost from_gives = { λ cause e. e ≡ normal_fault cause };

    fn from(cause: NFault) -> GrammarFault {
        match cause {
            NFault::Memory => GrammarFault::Memory,
            NFault::Undefined(_)
            | NFault::EmptyRule(_)
            | NFault::EmptyToken(_)
            | NFault::BadInline(_)
            | NFault::SymbolInToken(_)
            | NFault::Cyclic(_)
            | NFault::NonTerminalExtra(_)
            | NFault::Limit(_)
            | NFault::BadWord(_)
            | NFault::Pattern(_, _) => GrammarFault::Normal(cause),
        }
    }
}

impl From<LangFault> for GrammarFault {
    ghost use Rattle.std.specs.Prelude.{◌≡◌};
    ghost use Rattle.ts_front.specs.Gives.{language_fault};

    ghost from_gives = { λ cause e. e ≡ language_fault cause };

    fn from(cause: LangFault) -> GrammarFault {
        match cause {
            LangFault::Memory => GrammarFault::Memory,
            LangFault::Magic
            | LangFault::Version(_)
            | LangFault::Short(_)
            | LangFault::Long(_)
            | LangFault::Field(_)
            | LangFault::Misfit(_) => GrammarFault::Language(cause),
        }
    }
}
