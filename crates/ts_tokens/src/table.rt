//! The patterns of a grammar, each read once: the grammar comes in, and a table of what was read
//! goes out, or the first pattern that can't be read.

ghost use Rattle.std.specs.Prelude.{◌≡◌, ◌≢◌, ◌<◌, ◌^◌, length, IfOk, OnOk, IfErr, option_copied};
ghost use Rattle.std.specs.List.{Contains};
ghost use Rattle.ts_pattern.specs.Reads.{Reads};
ghost use Rattle.ts_rules.specs.FileGrammar.{IsFileGrammar};
ghost use Rattle.ts_rules.specs.Normal.{ArePatterns};
ghost use Rattle.ts_tokens.specs.Patterns.{PlacedPattern, read_as, meaning, IsSound, WasRead, TakesIn, IsRefusal, IsFaultAt, AreShortSources, IsPatternFault, placed_patterns};
ghost use Rattle.ts_tokens.specs.Placed.{told_patterns, source_told, name_told};

use crate::copy::copy_of;
use crate::fault::PatternFault;
use crate::placed::{Placed, Source, patterns_of};
use indexmap::IndexMap;
use std::alloc::{AllocError, Global};
use ts_core::{Grammar, Re, Str};
use ts_pattern::{PFault, pattern};

/// The patterns of a grammar by their sources, and what each was read as.
#[derive(Drop)]
pub struct PatternTable {
    /// The patterns without the flag `i`.
    pub plain: IndexMap<Str, Re>,
    /// The patterns with the flag `i`.
    pub ignoring_case: IndexMap<Str, Re>,
}

impl PatternTable {
    fn new(alloc: Global) -> PatternTable
        ensures { IsSound result }
    {
        PatternTable {
            plain: IndexMap::new(alloc),
            ignoring_case: IndexMap::new(alloc),
        }
    }

    /// What a source was read as, where it was.
    fn find(&self, text: &Str, ignore_case: bool) -> Option<&Re>
        ensures { option_copied result ≡ read_as self.now (text.now, ignore_case) }
    {
        if ignore_case {
            self.ignoring_case.get(text)
        } else {
            self.plain.get(text)
        }
    }

    /// A copy of what a source was read as, or the empty expression where it wasn't.
    pub(crate) fn expression(
        &self,
        alloc: Global,
        text: &Str,
        ignore_case: bool,
    ) -> Result<Re, AllocError>
        ensures { IfOk result (λ r. r ≡ meaning self.now text.now ignore_case) }
    {
        match self.find(text, ignore_case) {
            Some(re) => copy_of(alloc, re),
            None => Ok(Re::Empty),
        }
    }

    /// Puts in what a source was read as.
    fn put(
        &mut self,
        alloc: Global,
        text: &Str,
        ignore_case: bool,
        re: Re,
    ) -> Result<(), AllocError>
        requires { Reads text.now ignore_case re }
        ensures { OnOk result (TakesIn self.old self.new (text.now, ignore_case)) }
    {
        let text = Str::from_text(alloc, text.text())?;
        if ignore_case {
            self.ignoring_case.insert(text, re)?;
            return Ok(());
        }
        self.plain.insert(text, re)?;
        Ok(())
    }

    /// Reads a source, where it wasn't read before.
    fn learn(&mut self, alloc: Global, source: Source<'_>) -> Result<(), PFault>
        requires { length source.text.now < 2 ^ 32 }
        ensures ok { OnOk result (TakesIn self.old self.new (source_told source.entry)) }
        ensures refused { IfErr result (λ e. e ≢ PFault.Memory
            → IsRefusal (source_told source.entry) e) }
    {
        if self.find(source.text, source.ignore_case).is_some() {
            return Ok(());
        }
        let re = pattern(alloc, source.text.text(), source.ignore_case)?;
        self.put(alloc, source.text, source.ignore_case, re)?;
        Ok(())
    }
}

/// The name of a rule, and the empty one of an extra.
fn name_of(alloc: Global, rule: Option<&Str>) -> Result<Str, AllocError>
    ensures { IfOk result (λ name. name ≡ name_told rule.entry) }
{
    match rule {
        Some(name) => Str::from_text(alloc, name.text()),
        None => Str::from_text(alloc, ""),
    }
}

/// The fault of a pattern, with the name of its rule.
fn refusal(alloc: Global, rule: Option<&Str>, fault: PFault) -> PatternFault
    ensures { IsFaultAt (name_told rule.entry) fault result }
{
    if fault == PFault::Memory {
        return PatternFault::Memory;
    }
    match name_of(alloc, rule) {
        Ok(name) => PatternFault::Refused(name, fault),
        Err(_) => PatternFault::Memory,
    }
}

/// Reads patterns, up to the first that can't be read.
fn read_all(alloc: Global, placed: &[Placed<'_>]) -> Result<PatternTable, PatternFault>
    requires { AreShortSources (told_patterns placed.now) }
    ensures sound { IfOk result IsSound }
    ensures all { IfOk result (λ table. (p : PlacedPattern) → Contains (told_patterns placed.now) p
        → WasRead table p.source) }
    ensures refused { IfErr result (IsPatternFault (told_patterns placed.now)) }
{
    let mut table = PatternTable::new(alloc);
    for pattern in placed {
        match table.learn(alloc, pattern.source) {
            Ok(()) => {},
            Err(fault) => return Err(refusal(alloc, pattern.rule, fault)),
        }
    }
    Ok(table)
}

/// Reads the patterns of a grammar, each source once.
///
/// # Errors
///
/// `Refused` with the first pattern of the walk that can't be read: the rules in file order, each
/// in preorder, and then the extras. `Memory` may come at any time.
pub fn read_patterns(alloc: Global, grammar: &Grammar) -> Result<PatternTable, PatternFault>
    requires { IsFileGrammar grammar.now }
    ensures read { IfOk result (λ table. ArePatterns Reads grammar.now (meaning table)) }
    ensures refused { IfErr result (IsPatternFault (placed_patterns grammar.now)) }
{
    let placed = patterns_of(alloc, grammar)?;
    read_all(alloc, placed.as_slice())
}
