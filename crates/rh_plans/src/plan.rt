//! Plans, and what comes of them.

ghost use Rattle.std.specs.Prelude.{◌≡◌, ◌↔◌, IsTrue, IfOk};

use rh_base::{OutOfMemory, Str};
use rh_model::App;
use rh_rules::{Event, Refusal};
use rh_state::Standing;
use std::alloc::Global;
use std::marker::Model;
use std::sync::Arc;

/// Events that are tried one after the other, up to the first that is refused.
#[derive(Drop)]
pub struct Plan {
    /// What the plan is called, which has no effect. Several may be called the same.
    pub name: Str,
    /// The events, in order.
    pub events: Vec<Event>,
}

/// Distributed applications, and where each stands. Outcomes with equal standings share them.
#[derive(Drop)]
pub struct Standings {
    items: Arc<Vec<(App, Standing)>>,
}

/// Contracts see `Standings` as their list.
impl Model for Standings {
    ghost use Rattle.std.specs.Prelude.{List};
    ghost use Rattle.rh_model.specs.declared.node.App.{App};
    ghost use Rattle.rh_state.specs.declared.status.Standing.{Standing};

    ghost Value = { List (App × Standing) };

    ghost view = { λ s. s.items.value.items };
}

impl Standings {
    /// These standings.
    pub fn of(alloc: Global, items: Vec<(App, Standing)>) -> Result<Standings, OutOfMemory>
        ensures { IfOk result (λ standings. standings ≡ items.items) }
    {
        let items = Arc::new(alloc, items)?;
        Ok(Standings { items })
    }

    /// The standings.
    pub fn as_slice(&self) -> &[(App, Standing)]
        ensures { result.now ≡ self.now }
    {
        self.items.as_slice()
    }

    /// The same standings, which lie in memory once. The error says that there are too many who share them.
    pub fn share(&self) -> Result<Standings, OutOfMemory>
        ensures { IfOk result (λ copy. copy ≡ self.now) }
    {
        let items = Arc::try_clone(&self.items)?;
        Ok(Standings { items })
    }

    /// Whether the two are equal.
    pub fn same(&self, other: &Standings) -> bool
        ensures { IsTrue result ↔ (self.now ≡ other.now) }
    {
        are_same(self.as_slice(), other.as_slice())
    }
}

// Is it the same application, and does it stand at the same place?
fn is_same(this: &(App, Standing), that: &(App, Standing)) -> bool
    ensures { IsTrue result ↔ (this.now ≡ that.now) }
{
    this.0 == that.0 && this.1 == that.1
}

// Are these the same applications, which stand at the same places?
fn are_same(these: &[(App, Standing)], those: &[(App, Standing)]) -> bool
    ensures { IsTrue result ↔ (these.now ≡ those.now) }
{
    if these.len() != those.len() {
        return false;
    }
    'items: for (index, item) in these.iter().enumerate() {
        if !is_same(item, &those[index]) {
            return false;
        }
    }
    true
}

/// What comes of a plan: what one caller is told who makes its events, and where the applications stand then.
#[derive(Drop)]
pub struct Outcome {
    /// How many events were accepted.
    pub accepted: u32,
    /// The place of the refused event, counted from 0, and why it was refused. The plan ends there.
    pub refused: Option<(usize, Refusal)>,
    /// Where the distributed applications stand at the plan's end, in the order of the applications.
    pub standings: Standings,
    /// How often an application was started that was lost with another node.
    pub failovers: u128,
    /// How often one was started in place of one that ran at another node.
    pub takeovers: u128,
}

impl Outcome {
    /// This outcome, with the standings of an earlier one if they are equal, so that these lie in memory once.
    pub fn share_standings(self, earlier: Option<&Outcome>) -> Result<Outcome, OutOfMemory>
        ensures { IfOk result (λ outcome. outcome ≡ self) }
    {
        let mut outcome = self;
        if let Some(earlier) = earlier {
            if earlier.standings.same(&outcome.standings) {
                outcome.standings = earlier.standings.share()?;
            }
        }
        Ok(outcome)
    }
}
