//! Why a grammar file has no normal form that can be used.
use std::alloc::AllocError;
use thiserror::Error;
use ts_core::{Limited, Str};
use ts_form::FormFault;
use ts_pattern::PFault;
use ts_tokens::{InlineFault, PatternFault};

/// Why a grammar file has no normal form that can be used. Each text is a name as the file has it.
#[derive(Debug, Error, PartialEq, Eq, Drop)]
pub enum NFault {
    /// A SYMBOL, the word, or an entry of the conflicts, precedences or supertypes is no rule.
    #[error("a rule is not defined")]
    Undefined(Str),
    /// A rule can be empty that must not be. A repetition has the empty name.
    #[error("a rule can be empty")]
    EmptyRule(Str),
    /// A token matches the empty text.
    #[error("a token matches the empty text")]
    EmptyToken(Str),
    /// An inlined rule is the start rule, names a token, or comes back to itself.
    #[error("a rule can't be inlined")]
    BadInline(Str),
    /// A SYMBOL stands inside a token.
    #[error("a symbol stands inside a token")]
    SymbolInToken(Str),
    /// A symbol derives itself alone. A repetition is told by its owner.
    #[error("a rule derives itself alone")]
    Cyclic(Str),
    /// An extra is a SYMBOL that names no token, or holds a SYMBOL.
    #[error("an extra is no token")]
    NonTerminalExtra(Str),
    /// There is too much of something.
    #[error("a limit is passed")]
    Limit(Limited),
    /// The word names no token.
    #[error("the word is no token")]
    BadWord(Str),
    /// A pattern can't be read. The text is the name of its rule, and empty for an extra.
    #[error("a pattern can't be read")]
    Pattern(Str, PFault),
    /// Memory ran out.
    #[error("out of memory")]
    Memory,
}

impl From<AllocError> for NFault {
    ghost use Rattle.std.specs.Prelude.{◌≡◌};
    ghost use Rattle.ts_normalise.specs.declared.fault.NFault.TheVariants.{Memory};

    ghost from_gives = { λ _ e. e ≡ Memory };

    fn from(_: AllocError) -> NFault {
        NFault::Memory
    }
}

impl From<InlineFault> for NFault {
    ghost use Rattle.std.specs.Prelude.{◌≡◌};
    ghost use Rattle.ts_normalise.specs.Faults.{inline_told};

    ghost from_gives = { λ fault e. e ≡ inline_told fault };

    fn from(fault: InlineFault) -> NFault {
        match fault {
            InlineFault::Bad(name) => NFault::BadInline(name),
            InlineFault::Memory => NFault::Memory,
        }
    }
}

impl From<PatternFault> for NFault {
    ghost use Rattle.std.specs.Prelude.{◌≡◌};
    ghost use Rattle.ts_normalise.specs.Faults.{pattern_told};

    ghost from_gives = { λ fault e. e ≡ pattern_told fault };

    fn from(fault: PatternFault) -> NFault {
        match fault {
            PatternFault::Refused(rule, cause) => NFault::Pattern(rule, cause),
            PatternFault::Memory => NFault::Memory,
        }
    }
}

impl From<FormFault> for NFault {
    ghost use Rattle.std.specs.Prelude.{◌≡◌};
    ghost use Rattle.ts_normalise.specs.Faults.{form_told};

    ghost from_gives = { λ fault e. e ≡ form_told fault };

    fn from(fault: FormFault) -> NFault {
        match fault {
            FormFault::Limit(limit) => NFault::Limit(limit),
            FormFault::Memory => NFault::Memory,
        }
    }
}
