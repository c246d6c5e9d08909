//! The course of an application: where it ran, from when to when.

ghost use Rattle.std.specs.Prelude.{◌≡◌, ◌<◌, ◌≤◌, ◌++◌, ◌∷◌, [], filter, length, slice_get, if◌then◌else◌, IfOk, OnOk, Some};
ghost use Rattle.std.specs.Option.{option_map};
ghost use Rattle.rh_model.specs.ClusterView.{app_count};
ghost use Rattle.rh_state.specs.Stored.{read};
ghost use Rattle.rh_courses.specs.declared.course.Change.{Change};
ghost use Rattle.rh_courses.specs.Courses.{place_in, place_of, same_place, stays, length_by, is_run, is_gap, runs, ran, away, pieces};
ghost use Rattle.rh_courses.specs.Working.{not_run, noted};

use rh_base::OutOfMemory;
use rh_model::{App, Node};
use rh_state::{Standing, State};
use std::alloc::Global;
use std::marker::Model;

/// From this time on, in milliseconds, an application runs at another node, or nowhere.
#[derive(Clone, Copy, Debug, PartialEq, Eq)]
pub struct Change {
    pub time: u64,
    pub place: Option<Node>,
}

/// An application runs at a node, or nowhere, from one time to another, in milliseconds. A stay without an end lasts.
#[derive(Clone, Copy, Debug, PartialEq, Eq)]
pub struct Stay {
    pub place: Option<Node>,
    pub start: u64,
    pub end: Option<u64>,
}

/// Where a distributed application ran, from when to when.
#[derive(Drop)]
pub struct Course {
    app: App,
    changes: Vec<Change>,
    place: Option<Node>,
    time: u64,
}

impl Model for Course {
    ghost use Rattle.rh_courses.specs.Courses.{CourseView};

    ghost Value = { CourseView };

    ghost view = { λ c.
        record { app = c.app; changes = c.changes.items; place = c.place; time = c.time } };
}

impl Course {
    // An application that hasn't run.
    pub(crate) fn not_run(alloc: Global, app: App) -> Course
        ensures { result ≡ not_run app }
    {
        Course {
            app,
            changes: Vec::new(alloc),
            place: None,
            time: 0,
        }
    }

    // Notes where it runs in a state that is passed. Where memory is refused, nothing is noted.
    #[tactic(auto, unfolding(crate::specs::Working::noted, crate::specs::Courses::changes_from))]
    pub(crate) fn note(&mut self, state: &State) -> Result<(), OutOfMemory>
        requires { self.old.app.0 < app_count (read state.now).cluster }
        ensures noted { OnOk result (self.new ≡ noted self.old (read state.now)) }
    {
        let time = state.now();
        let place = place_in(state, self.app);
        if !same_place(self.place, place) {
            self.changes.push(Change { time, place })?;
        }
        self.place = place;
        self.time = time;
        Ok(())
    }

    /// The application.
    pub fn app(&self) -> App
        ensures { result ≡ self.now.app }
    {
        self.app
    }

    /// When it came to run elsewhere or nowhere, and where it ran from then on.
    pub fn changes(&self) -> &[Change]
        ensures { result.now ≡ self.now.changes }
    {
        self.changes.as_slice()
    }

    /// Where it runs now, if it runs.
    pub fn place(&self) -> Option<Node>
        ensures { result ≡ self.now.place }
    {
        self.place
    }

    /// The time now, in milliseconds.
    pub fn time(&self) -> u64
        ensures { result ≡ self.now.time }
    {
        self.time
    }

    /// Where it was since it first ran, at a node or nowhere: the stay of this number.
    pub fn stay(&self, index: usize) -> Stay
        requires { index < length self.now.changes }
        ensures { slice_get (stays self.now) index ≡ Some result }
    {
        let change = change_at(self.changes(), index);
        let end = time_at(self.changes(), index + 1);
        Stay {
            place: change.place,
            start: change.time,
            end,
        }
    }

    /// The stays in which it ran, in order.
    pub fn runs(&self, alloc: Global) -> Result<Vec<Stay>, OutOfMemory>
        ensures { IfOk result (λ found. found.items ≡ runs self.now) }
    {
        let mut found = Vec::new(alloc);
        for index in 0..self.changes.len() {
            let stay = self.stay(index);
            push_if_run(&mut found, stay)?;
        }
        Ok(found)
    }

    /// For how long it ran, in milliseconds.
    pub fn ran(&self) -> u128
        ensures { result ≡ ran self.now }
    {
        let mut total: u128 = 0;
        for index in 0..self.changes.len() {
            let stay = self.stay(index);
            let length = run_length(stay, self.time());
            total += length as u128;
        }
        total
    }

    /// For how long it ran nowhere since it first ran, in milliseconds, up to now.
    pub fn away(&self) -> u128
        ensures { result ≡ away self.now }
    {
        let mut total: u128 = 0;
        for index in 0..self.changes.len() {
            let stay = self.stay(index);
            let length = gap_length(stay, self.time());
            total += length as u128;
        }
        total
    }

    /// In how many pieces it ran nowhere since it first ran. Each counts, also one that begins and ends at the same time.
    pub fn pieces(&self) -> usize
        ensures { result ≡ pieces self.now }
    {
        let mut count = 0;
        for index in 0..self.changes.len() {
            let stay = self.stay(index);
            let more = gap_count(stay);
            count += more;
        }
        count
    }
}

// Adds a stay in which an application ran.
fn push_if_run(found: &mut Vec<Stay>, stay: Stay) -> Result<(), OutOfMemory>
    ensures { OnOk result (found.new.items ≡ found.old.items ++ filter is_run (stay ∷ [])) }
{
    if stay.place.is_some() {
        found.push(stay)?;
    }
    Ok(())
}

// How long an application ran in a stay.
fn run_length(stay: Stay, now: u64) -> u64
    ensures { result ≡ (if is_run stay then length_by now stay else 0) }
{
    match stay.place {
        Some(_) => length_of(stay, now),
        None => 0,
    }
}

// How long it ran nowhere in it.
fn gap_length(stay: Stay, now: u64) -> u64
    ensures { result ≡ (if is_gap stay then length_by now stay else 0) }
{
    match stay.place {
        Some(_) => 0,
        None => length_of(stay, now),
    }
}

// One for a stay in which it ran nowhere.
fn gap_count(stay: Stay) -> usize
    ensures gap { result ≡ (if is_gap stay then 1 else 0) }
    ensures one { result ≤ 1 }
{
    match stay.place {
        Some(_) => 0,
        None => 1,
    }
}

// The change of this number.
fn change_at(changes: &[Change], index: usize) -> Change
    requires { index < length changes.now }
    ensures { slice_get changes.now index ≡ Some result }
{
    changes[index]
}

// When the change of this number came, if there is one.
fn time_at(changes: &[Change], index: usize) -> Option<u64>
    ensures { result ≡ option_map (λ (c : Change). c.time) (slice_get changes.now index) }
{
    if index < changes.len() {
        Some(changes[index].time)
    } else {
        None
    }
}

// How long a stay is, up to now if it lasts.
fn length_of(stay: Stay, now: u64) -> u64
    ensures { result ≡ length_by now stay }
{
    match stay.end {
        Some(end) => end.saturating_sub(stay.start),
        None => now.saturating_sub(stay.start),
    }
}

// Where an application runs in a state, if it runs.
fn place_in(state: &State, app: App) -> Option<Node>
    requires { app.0 < app_count (read state.now).cluster }
    ensures { result ≡ place_in (read state.now) app }
{
    match state.standing(app) {
        Standing::Running(node) => Some(node),
        Standing::Quiet | Standing::Wanted(_) | Standing::Lost(_) => None,
    }
}

// Are these the same place?
fn same_place(place: Option<Node>, other: Option<Node>) -> bool
    ensures { result ≡ same_place place other }
{
    match (place, other) {
        (None, None) => true,
        (Some(node), Some(another)) => node.0 == another.0,
        _ => false,
    }
}
