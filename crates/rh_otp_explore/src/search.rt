//! The search.

ghost use Rattle.std.specs.Prelude.{◌≡◌, [], map, IfOk};
ghost use Rattle.rh_explore_text.specs.Asks.{ask_view};
ghost use Rattle.rh_otp_explore.specs.Listing.{scope_of};
ghost use Rattle.rh_otp_explore.specs.Searching.{IsLiveAnswer};
ghost use Rattle.rh_otp_explore.specs.Working.{AreTried};

use crate::listing::{Bounds, try_longer};
use crate::stand::Stand;
use crate::tally::{Asked, Tally};
use rh_base::OutOfMemory;
use rh_explore::{Ask, Covered, Move};
use rh_otp_sim::LiveSim;
use rh_rules::Event;
use std::alloc::Global;
use std::marker::Model;

/// The longest lists that are tried have so many events.
pub const MOST_EVENTS: u8 = 255;

/// What a search on live nodes is to look for.
#[derive(Drop)]
pub struct LiveSearch {
    /// What may happen, each as often as one likes.
    pub moves: Vec<Move>,
    /// At most so many nodes are waiting or down behind each event. The base may have more.
    pub down: usize,
    /// At most so many events follow one another.
    pub steps: u8,
    /// At most so many lists are tried, and at least the one without events.
    pub lists: usize,
    /// What is asked behind each list.
    pub asks: Vec<Ask>,
}

/// What a search on live nodes found.
#[derive(Drop)]
pub struct LiveExplored {
    /// How many lists were tried.
    pub lists: usize,
    /// The lists of which all were tried.
    pub covered: Covered,
    /// What is known of each ask, in their order.
    pub asked: Vec<Asked>,
}

/// Contracts see it as its parts.
impl Model for LiveExplored {
    ghost use Rattle.rh_otp_explore.specs.Searching.{LiveExploredView};

    ghost Value = { LiveExploredView };

    ghost view = { λ x. record { lists = x.lists; covered = x.covered; asked = x.asked.items } };
}

/// What holds of live nodes behind all lists of the moves of a search, each as often as one likes and in every order, where each event
/// may come: it is carried out, whatever it is answered. An event that can't be given to a node, or has no end, doesn't come.
///
/// The lists are tried in their order, shorter ones first, and those that are as long in the order of the moves; so an ask that has
/// failed has the first list of all behind which it doesn't hold. The search ends where no list is left, of any length or of at most so
/// many events; where so many were tried as there may be; or where each ask has failed. The base is left as it is.
pub fn explore_live(
    alloc: Global,
    base: &LiveSim,
    search: LiveSearch,
) -> Result<LiveExplored, OutOfMemory>
    ensures { IfOk result (IsLiveAnswer (record { moves = search.moves.items; down = search.down })
        base.now search.steps search.lists (map ask_view search.asks.items)) }
{
    let LiveSearch {
        moves,
        down,
        steps,
        lists,
        asks,
    } = search;
    let bounds = Bounds {
        moves: moves.as_slice(),
        down,
        states: lists,
    };
    let stand = Stand::begin(alloc, base)?;
    let mut tally = Tally::new(alloc, asks)?;
    let covered = try_all(alloc, bounds, &stand, steps, &mut tally)?;
    Ok(LiveExplored {
        lists: tally.lists,
        covered,
        asked: tally.asked,
    })
}

// Tries all lists of at most so many events, and answers of which lengths all were tried.
fn try_all(
    alloc: Global,
    bounds: Bounds,
    stand: &Stand,
    steps: u8,
    tally: &mut Tally,
) -> Result<Covered, OutOfMemory>
    requires { tally.old.lists ≡ 0 }
    ensures { IfOk result (AreTried (scope_of bounds.entry) steps bounds.entry.states
        (record { events = []; sim = stand.now }) tally.old tally.new) }
{
    let mut events: Vec<Event> = Vec::new(alloc);
    let mut length = 0;
    'lengths: loop {
        let before = tally.lists;
        try_longer(alloc, bounds, stand, &mut events, length, tally)?;
        if tally.is_over(bounds.states) {
            return Ok(Covered::UpTo(length.saturating_sub(1) as u32));
        }
        if tally.lists == before {
            return Ok(Covered::All);
        }
        if length >= steps {
            return Ok(Covered::UpTo(steps as u32));
        }
        length += 1;
    }
}
