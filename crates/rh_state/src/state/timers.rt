//! The timers of a state. Only the list of all of them takes memory.

ghost use Rattle.std.specs.Prelude.{true, ◌≡◌, ◌<◌, IsSome, IsNone, IfSome, IfOk, All};
ghost use Rattle.rh_wheel.specs.Stored.{timer_count};
ghost use Rattle.rh_state.specs.Timers.{number_of, timer_numbered};
ghost use Rattle.rh_state.specs.StateView.{due_of, earliest};
ghost use Rattle.rh_state.specs.Setters.{with_timer, without_due};
ghost use Rattle.rh_state.specs.Shape.{IsTimerOf};
ghost use Rattle.rh_state.specs.Stored.{read};
ghost use Rattle.rh_state.specs.Edits.{exchange, is_done};

use crate::edit::Edit;
use crate::state::State;
use crate::status::Timer;
use rh_base::OutOfMemory;
use rh_model::{App, Node};
use std::alloc::Global;

#[tactic(auto, unfolding(crate::specs::Stored::read))]
impl State {
    // The number of a timer in the wheel.
    fn number_of(&self, timer: Timer) -> u32
        requires { IsTimerOf self.now.cluster timer }
        ensures number { result ≡ number_of self.now.cluster timer }
        ensures numbered { timer_numbered self.now.cluster result ≡ timer }
        ensures within { result < timer_count self.now.wheel }
    {
        match timer {
            Timer::Sync(node) => node.0 as u32,
            Timer::Failover(app) => self.cluster.node_count() as u32 + app.0 as u32,
        }
    }

    // The timer that has a number in the wheel.
    fn timer_of(&self, number: u32) -> Timer
        requires { number < timer_count self.now.wheel }
        ensures timer { result ≡ timer_numbered self.now.cluster number }
        ensures within { IsTimerOf self.now.cluster result }
    {
        let nodes = self.cluster.node_count() as u32;
        if number < nodes {
            Timer::Sync(Node(number as u8))
        } else {
            let _apps = self.cluster.app_count();
            Timer::Failover(App((number - nodes) as u8))
        }
    }

    /// When a timer is due, in milliseconds; `None` exactly if it isn't set.
    pub fn due_of(&self, timer: Timer) -> Option<u64>
        requires { IsTimerOf (read self.now).cluster timer }
        ensures { result ≡ due_of (read self.now) timer }
    {
        self.wheel.due_of(self.number_of(timer))
    }

    /// The timer that fires first, behind its due time; `None` exactly if none is set.
    pub fn earliest(&self) -> Option<(u64, Timer)>
        ensures first { result ≡ earliest (read self.now) }
        ensures number { IfSome result (λ entry. IsTimerOf (read self.now).cluster entry.1) }
    {
        match self.wheel.earliest() {
            Some((due, number)) => Some((due, self.timer_of(number))),
            None => None,
        }
    }

    /// All timers that are set, each behind its due time, in the order in which they fire.
    pub fn timers(&self, alloc: Global) -> Result<Vec<(u64, Timer)>, OutOfMemory>
        ensures timers { IfOk result (λ timers. timers.items ≡ (read self.now).timers) }
        ensures numbers { IfOk result
            (λ timers. All (λ entry. IsTimerOf (read self.now).cluster entry.1) timers.items) }
    {
        let mut wheel = self.wheel.copy(alloc)?;
        let mut timers = Vec::new(alloc);
        while let Some((due, number)) = wheel.earliest() {
            timers.push((due, self.timer_of(number)))?;
            let _ = wheel.cancel(number);
        }
        Ok(timers)
    }

    /// Sets a timer that isn't set, with its due time in milliseconds. It fires behind all that aren't due later.
    pub fn arm_timer(&mut self, timer: Timer, due: u64) -> Edit
        requires timer { IsTimerOf (read self.old).cluster timer }
        requires unset { IsNone (due_of (read self.old) timer) }
        ensures part { read self.new ≡ with_timer (read self.old) due timer }
        ensures done { is_done result ≡ true }
        ensures exact { exchange self.new result ≡ self.old }
    {
        let number = self.number_of(timer);
        let edit = self.wheel.arm(number, due);
        self.wheel.formed();
        Edit::Timer(edit)
    }

    /// Cancels a timer that is set.
    pub fn cancel_timer(&mut self, timer: Timer) -> Edit
        requires timer { IsTimerOf (read self.old).cluster timer }
        requires set { IsSome (due_of (read self.old) timer) }
        ensures part { read self.new ≡ without_due (read self.old) timer }
        ensures done { is_done result ≡ true }
        ensures exact { exchange self.new result ≡ self.old }
    {
        let number = self.number_of(timer);
        let edit = self.wheel.cancel(number);
        self.wheel.formed();
        Edit::Timer(edit)
    }
}
