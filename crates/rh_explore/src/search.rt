//! What is searched.

use crate::asking::Ask;
use crate::bounds::Bounds;
use crate::moves::Move;
use rh_state::State;
use rh_step::Pick;

/// A search: from where, what may happen, how far it goes, and what is asked of each state.
#[derive(Clone, Copy)]
pub struct Search<'a> {
    /// Where it begins: a state that a cluster reaches, as that of each simulation.
    pub base: &'a State,
    /// Which moves are made first where several may be (ours, as in each simulation).
    pub pick: Pick,
    /// What may happen, each as often as one likes, and in every order in which the rules accept it.
    pub moves: &'a [Move],
    /// How far it goes.
    pub bounds: Bounds,
    /// What is asked of each state.
    pub asks: &'a [Ask],
}
