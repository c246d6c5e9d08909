//! What is known of asks behind the lists that were tried.

ghost use Rattle.std.specs.Prelude.{◌≡◌, map, IfOk, OnOk, false};
ghost use Rattle.std.specs.List.{list_all};
ghost use Rattle.rh_explore_text.specs.Asks.{ask_view};
ghost use Rattle.rh_otp_explore.specs.Listing.{Behind};
ghost use Rattle.rh_otp_explore.specs.Tallying.{has_failed, is_over, judged, tallied, not_failed, nothing_tried};

use crate::asking::holds_in;
use crate::stand::Stand;
use rh_base::OutOfMemory;
use rh_explore::Ask;
use rh_otp_report::{Report, report_of};
use rh_rules::Event;
use std::alloc::Global;
use std::marker::Model;

/// A list of events behind which what is asked doesn't hold.
#[derive(Drop)]
pub struct Failure {
    pub events: Vec<Event>,
    /// What is told of the live nodes behind them.
    pub report: Report,
}

/// Contracts see it as its parts.
impl Model for Failure {
    ghost use Rattle.rh_otp_explore.specs.Tallying.{FailureView};

    ghost Value = { FailureView };

    ghost view = { λ f. record { events = f.events.items; report = f.report } };
}

/// What is asked, and the first list of events behind which it doesn't hold.
#[derive(Drop)]
pub struct Asked {
    pub ask: Ask,
    /// None where it held behind all lists that were tried.
    pub first: Option<Failure>,
}

/// Contracts see it as its parts.
impl Model for Asked {
    ghost use Rattle.rh_explore_text.specs.Asks.{ask_view};
    ghost use Rattle.rh_otp_explore.specs.Tallying.{AskedView};

    ghost Value = { AskedView };

    ghost view = { λ q. record { ask = ask_view q.ask; first = q.first } };
}

impl Asked {
    // Has it failed behind a list?
    fn has_failed(&self) -> bool
        ensures { result ≡ has_failed self.now }
    {
        self.first.is_some()
    }

    // Judges it behind a list more, if it hasn't failed.
    fn judge(&mut self, alloc: Global, stand: &Stand, events: &[Event]) -> Result<(), OutOfMemory>
        ensures { OnOk result
            (self.new ≡ judged (record { events = events.now; sim = stand.now }) self.old) }
    {
        if self.first.is_none() && !holds_in(alloc, &self.ask, stand)? {
            self.first = Some(Failure {
                events: Vec::from_slice(alloc, events)?,
                report: report_of(alloc, &stand.sim)?,
            });
        }
        Ok(())
    }
}

/// How many lists were tried, and what is known of each ask.
#[derive(Drop)]
pub(crate) struct Tally {
    pub(crate) lists: usize,
    pub(crate) asked: Vec<Asked>,
}

/// Contracts see it as its parts.
impl Model for Tally {
    ghost use Rattle.rh_otp_explore.specs.Tallying.{TallyView};

    ghost Value = { TallyView };

    ghost view = { λ t. record { lists = t.lists; asked = t.asked.items } };
}

// What is asked, before the first list.
fn not_failed(ask: Ask) -> Asked
    ensures { result ≡ not_failed (ask_view ask) }
{
    Asked { ask, first: None }
}

impl Tally {
    /// Before the first list.
    pub(crate) fn new(alloc: Global, asks: Vec<Ask>) -> Result<Tally, OutOfMemory>
        ensures { IfOk result (λ tally. tally ≡ nothing_tried (map ask_view asks.items)) }
    {
        let mut asked = Vec::new(alloc);
        for ask in asks {
            asked.push(not_failed(ask))?;
        }
        Ok(Tally { lists: 0, asked })
    }

    // Has each ask failed?
    fn all_failed(&self) -> bool
        ensures { result ≡ list_all has_failed self.now.asked }
    {
        self.asked.iter().all(|asked| asked.has_failed())
    }

    /// Is it over: were so many lists tried as there may be, or has each ask failed?
    pub(crate) fn is_over(&self, states: usize) -> bool
        ensures { result ≡ is_over states self.now }
    {
        self.lists > 0 && (self.lists >= states || self.all_failed())
    }

    /// Tries a list more, where it isn't over.
    pub(crate) fn take(
        &mut self,
        alloc: Global,
        states: usize,
        stand: &Stand,
        events: &[Event],
    ) -> Result<(), OutOfMemory>
        requires { is_over states self.old ≡ false }
        ensures { OnOk result (self.new
            ≡ tallied states self.old (record { events = events.now; sim = stand.now })) }
    {
        judge_all(alloc, &mut self.asked, stand, events)?;
        self.lists += 1;
        Ok(())
    }
}

// Judges all asks behind a list more.
fn judge_all(
    alloc: Global,
    asked: &mut [Asked],
    stand: &Stand,
    events: &[Event],
) -> Result<(), OutOfMemory>
    ensures { OnOk result
        (asked.new ≡ map (judged (record { events = events.now; sim = stand.now })) asked.old) }
{
    for one in asked.iter_mut() {
        one.judge(alloc, stand, events)?;
    }
    Ok(())
}
