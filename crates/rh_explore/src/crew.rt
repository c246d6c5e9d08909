//! Who expands states.

ghost use denote.Param.Send.{IsSync};
ghost use Rattle.std.specs.Prelude.{◌≡◌, ◌<◌, length, All, IfOk, OnOk, IsOk, ⊤};
ghost use Rattle.std.specs.List.{AllZip, flat_map};
ghost use Rattle.rh_explore.specs.Families.{ArePieces, IsPiece, knowing, piece_waiting, part_items};
ghost use Rattle.rh_explore.specs.Kept.{ExpandsFor};

use crate::families::Family;
use crate::leads::Expansion;
use crate::search::Search;
use crate::worker::{Known, expand_piece};
use rh_base::OutOfMemory;
use std::alloc::Global;
use std::collections::VecDeque;
use std::thread;
use std::thread::Threads;

/// Some workers, who expand states for a search. What they answer is said by the contract alone, so a search answers the same whoever
/// they are.
pub trait Crew {
    // They are in a state in which they can work.
    ghost ready: { Self → Type 0 };

    /// How many pieces they are given at a time. One alone is given none: the caller expands the states then.
    fn count(&self) -> usize
        ensures { 0 < result };

    /// Where all moves lead from the states of all pieces, in their order.
    fn expand(
        &self,
        alloc: Global,
        search: &Search,
        known: &Known,
        pieces: Vec<VecDeque<Family>>,
    ) -> Result<VecDeque<Expansion>, OutOfMemory>
        requires ready { ready self.now }
        requires known { length known.now.firsts.now ≡ length search.now.asks.now }
        requires pieces { ArePieces pieces.items }
        ensures { IfOk result (λ expansions. AllZip (ExpandsFor search.now (knowing known.now))
            (flat_map (piece_waiting search.now.pick) pieces.items) expansions.items) };
}

/// The caller as the only worker. It starts no thread.
#[derive(Clone, Copy)]
pub struct Alone;

impl Crew for Alone {
    ghost ready = { λ crew. ⊤ };

    fn count(&self) -> usize {
        1
    }

    // The pieces one after the other. No search asks for it, since one worker is given no piece: it is there because each crew has
    // it, whoever asks.
    fn expand(
        &self,
        alloc: Global,
        search: &Search,
        known: &Known,
        pieces: Vec<VecDeque<Family>>,
    ) -> Result<VecDeque<Expansion>, OutOfMemory> {
        let mut rest = VecDeque::from(pieces);
        let mut all = VecDeque::new(alloc);
        'pieces: while let Some(piece) = rest.pop_front() {
            let mut expansions = expand_piece(alloc, search, known, piece)?;
            all.append(&mut expansions)?;
        }
        Ok(all)
    }
}

/// Workers in threads of a host. Where no thread can be made they work in turn.
#[derive(Drop)]
pub struct Threaded<'a, T> {
    host: &'a T,
    workers: usize,
}

impl<'a, T> Threaded<'a, T> {
    /// So many of this host, and at least one.
    pub fn new(host: &'a T, workers: usize) -> Threaded<'a, T>
        ensures { result.workers ≡ workers }
    {
        Threaded { host, workers }
    }
}

impl<T: Threads + Sync> Crew for Threaded<'_, T> {
    // Threads may share the host.
    ghost ready = { λ crew. IsSync T.row };

    fn count(&self) -> usize {
        self.workers.max(1)
    }

    fn expand(
        &self,
        alloc: Global,
        search: &Search,
        known: &Known,
        pieces: Vec<VecDeque<Family>>,
    ) -> Result<VecDeque<Expansion>, OutOfMemory> {
        let parts = thread::map_vec(
            self.host,
            pieces,
            &|piece: VecDeque<Family>| -> Result<VecDeque<Expansion>, OutOfMemory>
                requires { IsPiece piece
                    × (length known.now.firsts.now ≡ length search.now.asks.now) }
                ensures { IfOk result
                    (λ expansions. AllZip (ExpandsFor search.entry.now (knowing known.entry.now))
                    (piece_waiting search.entry.now.pick piece) expansions.items) }
            { expand_piece(alloc, search, known, piece) },
        )?;
        join_parts(alloc, parts)
    }
}

// What all parts have, in their order.
fn join_parts(
    alloc: Global,
    parts: Vec<Result<VecDeque<Expansion>, OutOfMemory>>,
) -> Result<VecDeque<Expansion>, OutOfMemory>
    ensures whole { OnOk result (All IsOk parts.items) }
    ensures all { IfOk result (λ all. all.items ≡ flat_map part_items parts.items) }
{
    let mut rest = VecDeque::from(parts);
    let mut all = VecDeque::new(alloc);
    'parts: while let Some(part) = rest.pop_front() {
        let mut expansions = part?;
        all.append(&mut expansions)?;
    }
    Ok(all)
}
