//! Live nodes, with what is told of them.

ghost use Rattle.std.specs.Prelude.{◌≡◌, IfOk};
ghost use Rattle.rh_otp_sim.specs.Sim.{without_past};
ghost use Rattle.rh_otp_explore.specs.Coming.{after, is_made, is_not_up, not_up_count, comes, made_if};
ghost use Rattle.rh_otp_report.specs.Report.{report_of};

use rh_base::OutOfMemory;
use rh_otp_node::Phase;
use rh_otp_report::{NodeReport, Report, report_of};
use rh_otp_sim::{LiveSim, Outcome};
use rh_rules::Event;
use std::alloc::Global;
use std::marker::Model;

/// Live nodes, with what is told of them.
#[derive(Drop)]
pub(crate) struct Stand {
    pub(crate) sim: LiveSim,
    pub(crate) report: Report,
}

/// Contracts see it as the live nodes.
impl Model for Stand {
    ghost use Rattle.std.specs.Prelude.{◌≡◌};
    ghost use Rattle.rh_otp_sim.specs.Sim.{LiveSimView};
    ghost use Rattle.rh_otp_report.specs.Report.{report_of};

    ghost Value = { LiveSimView };

    ghost view = { λ s. s.sim };

    ghost invariant = { λ s. s.report ≡ report_of s.sim };
}

// Is it carried out?
fn is_made(outcome: &Outcome) -> bool
    ensures { result ≡ is_made outcome.now }
{
    matches!(outcome, Outcome::Done(_))
}

/// Isn't the node up?
pub(crate) fn is_not_up(report: &NodeReport) -> bool
    ensures { result ≡ is_not_up report.now }
{
    !matches!(report.phase, Phase::Up)
}

// How many nodes aren't up.
fn not_up_count(nodes: &[NodeReport]) -> usize
    ensures { result ≡ not_up_count nodes.now }
{
    nodes.iter().filter(|report| is_not_up(*report)).count()
}

impl Stand {
    /// Live nodes as they are, without the steps that led to them.
    pub(crate) fn begin(alloc: Global, sim: &LiveSim) -> Result<Stand, OutOfMemory>
        ensures { IfOk result (λ stand. stand ≡ without_past sim.now) }
    {
        let sim = sim.without_past(alloc)?;
        let report = report_of(alloc, &sim)?;
        Ok(Stand { sim, report })
    }

    /// What is told of the live nodes behind an event.
    pub(crate) fn told_after(&self, alloc: Global, event: Event) -> Result<Report, OutOfMemory>
        ensures { IfOk result (λ report. report ≡ report_of (after event self.now)) }
    {
        let mut sim = self.sim.without_past(alloc)?;
        sim.step(alloc, event)?;
        report_of(alloc, &sim)
    }

    /// The live nodes behind an event, if it may come: it is carried out, and no more nodes than so many aren't up behind it.
    pub(crate) fn after(
        &self,
        alloc: Global,
        event: Event,
        down: usize,
    ) -> Result<Option<Stand>, OutOfMemory>
        ensures { IfOk result (λ next. next ≡ made_if (comes down event self.now) event self.now) }
    {
        let mut sim = self.sim.without_past(alloc)?;
        if !is_made(&sim.step(alloc, event)?) {
            return Ok(None);
        }
        let report = report_of(alloc, &sim)?;
        if not_up_count(report.nodes.as_slice()) > down {
            return Ok(None);
        }
        Ok(Some(Stand { sim, report }))
    }
}
