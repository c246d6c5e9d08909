//! What a cluster keeps of an application.

use crate::name_set::same_text;
use crate::settings::{Dep, Spread};
use rh_base::{Duplicate, OutOfMemory, Same, Str, Term, are_same};
use std::alloc::Global;
use std::marker::Model;

/// The value of the key `mod`.
#[derive(Drop)]
pub struct Start {
    /// The module.
    pub module: Str,
    /// The start argument.
    pub argument: Term,
}

/// What the keys say of their application.
#[derive(Drop)]
pub struct AppSettings {
    deps: Vec<Dep>,
    start: Option<Start>,
    phases: bool,
    spread: Option<Spread>,
}

/// Contracts see `AppSettings` as what a file says of the application, the start argument by its symbols.
impl Model for AppSettings {
    ghost use Rattle.std.specs.Option.{option_map};
    ghost use Rattle.rh_base.specs.Tree.{tree_of};
    ghost use Rattle.rh_model.specs.ClusterView.{AppView};
    ghost use Rattle.rh_model.specs.TermSymbols.{symbols_of};

    ghost Value = { AppView };

    ghost view = { λ a. record {
      deps = a.deps.items;
      start_arg = option_map (λ s. (s.module, symbols_of (tree_of s.argument))) a.start;
      phases = a.phases;
      spread = a.spread;
    } };
}

impl AppSettings {
    ghost use Rattle.std.specs.Prelude.{◌≡◌, ◌↔◌, IfOk, IsTrue};
    ghost use Rattle.std.specs.Option.{option_map};
    ghost use Rattle.rh_base.specs.Tree.{tree_of};
    ghost use Rattle.rh_model.specs.TermSymbols.{symbols_of};

    /// The settings of an application.
    pub fn of(
        deps: Vec<Dep>,
        start: Option<Start>,
        phases: bool,
        spread: Option<Spread>,
    ) -> AppSettings
        ensures { result ≡ record {
          deps = deps.items;
          start_arg = option_map (λ s. (s.module, symbols_of (tree_of s.argument))) start;
          phases = phases;
          spread = spread;
        } }
    {
        AppSettings {
            deps,
            start,
            phases,
            spread,
        }
    }

    /// What it must find started, in order.
    pub fn deps(&self) -> &[Dep]
        ensures { result.now ≡ self.now.deps }
    {
        self.deps.as_slice()
    }

    /// The module of its key `mod`, and the argument.
    pub fn start_arg(&self) -> Option<(&str, &Term)>
        ensures { option_map (λ s. (s.0.now, symbols_of (tree_of s.1.now))) result
            ≡ self.now.start_arg }
    {
        let start = self.start.as_ref()?;
        Some((start.module.as_str(), &start.argument))
    }

    /// Are its start phases defined?
    pub fn phases(&self) -> bool
        ensures { result ≡ self.now.phases }
    {
        self.phases
    }

    /// Where it may run, if it is distributed.
    pub fn spread(&self) -> Option<&Spread>
        ensures { option_map (λ s. s.now) result ≡ self.now.spread }
    {
        self.spread.as_ref()
    }
}

impl Duplicate for AppSettings {
    fn copy(&self, alloc: Global) -> Result<AppSettings, OutOfMemory>
        ensures { IfOk result (λ copy. copy ≡ self.now) }
    {
        let deps = Vec::from_slice(alloc, self.deps())?;
        let start = copy_of_start(alloc, self.start_arg())?;
        let spread = copy_of_spread(alloc, self.spread())?;
        Ok(AppSettings::of(deps, start, self.phases(), spread))
    }
}

impl Same for AppSettings {
    fn same(&self, other: &AppSettings) -> bool
        ensures { IsTrue result ↔ (self.now ≡ other.now) }
    {
        are_same(self.deps(), other.deps())
            && same_start(self.start_arg(), other.start_arg())
            && self.phases() == other.phases()
            && same_spread(self.spread(), other.spread())
    }
}

ghost use Rattle.std.specs.Prelude.{◌≡◌, ◌↔◌, IfOk, IsTrue, List, ℕ};
ghost use Rattle.std.specs.Option.{option_map};
ghost use Rattle.rh_base.specs.Tree.{Tree, tree_of};
ghost use Rattle.rh_model.specs.TermSymbols.{TermSymbol, symbols_of};

/// A copy of a start argument, with its module.
pub fn copy_of_start(
    alloc: Global,
    start: Option<(&str, &Term)>,
) -> Result<Option<Start>, OutOfMemory>
    ensures { IfOk result (λ copy.
        option_map {U = List ℕ × Tree} (λ s. (s.module, tree_of s.argument)) copy ≡
        option_map {U = List ℕ × Tree} (λ s. (s.0.now, tree_of s.1.now)) start.entry) }
{
    match start {
        Some((module, argument)) => {
            let module = Str::of(String::from_str(alloc, module)?);
            let argument = argument.copy(alloc)?;
            Ok(Some(Start { module, argument }))
        }
        None => Ok(None),
    }
}

/// A copy of where an application may run.
pub fn copy_of_spread(alloc: Global, spread: Option<&Spread>) -> Result<Option<Spread>, OutOfMemory>
    ensures { IfOk result (λ copy. copy ≡ option_map (λ s. s.now) spread.entry) }
{
    match spread {
        Some(spread) => {
            let groups = spread.groups.copy(alloc)?;
            Ok(Some(Spread {
                timeout: spread.timeout,
                groups,
            }))
        }
        None => Ok(None),
    }
}

// The same words, and so the same term: no two terms have the same words.
fn same_argument(this: &Term, that: &Term) -> bool
    ensures { IsTrue result ↔ (symbols_of (tree_of this.now) ≡ symbols_of (tree_of that.now)) }
{
    this.same(that)
}

// Are both absent, or are the modules and the start arguments equal?
fn same_start(this: Option<(&str, &Term)>, that: Option<(&str, &Term)>) -> bool
    ensures { IsTrue result ↔ (option_map {U = List ℕ × List TermSymbol}
        (λ s. (s.0.now, symbols_of (tree_of s.1.now))) this.entry ≡ option_map {U = List ℕ
        × List TermSymbol} (λ s. (s.0.now, symbols_of (tree_of s.1.now))) that.entry) }
{
    match (this, that) {
        (Some((module, argument)), Some((other_module, other_argument))) => {
            same_text(module, other_module) && same_argument(argument, other_argument)
        }
        (None, None) => true,
        _ => false,
    }
}

// Are both absent, or are the timeouts and the groups equal?
fn same_spread(this: Option<&Spread>, that: Option<&Spread>) -> bool
    ensures { IsTrue result
        ↔ (option_map (λ s. s.now) this.entry ≡ option_map (λ s. s.now) that.entry) }
{
    match (this, that) {
        (Some(this), Some(that)) => {
            this.timeout == that.timeout && this.groups.same(&that.groups)
        }
        (None, None) => true,
        _ => false,
    }
}

impl Same for Dep {
    fn same(&self, other: &Dep) -> bool
        ensures { IsTrue result ↔ (self.now ≡ other.now) }
    {
        *self == *other
    }
}
