//! The walk along the application's list.

ghost use Rattle.std.specs.Prelude.{◌≡◌, OnOk};
ghost use Rattle.rh_otp_dist.specs.Choosing.{behind_place, find_start_node, at_tuple, weigh, ask_weights};

use crate::attempt::Attempt;
use crate::reading::{among, group_at, places_of, reversed};
use crate::state::{Stand, Weighing};
use crate::turn::Turn;
use rh_base::OutOfMemory;
use rh_model::{Node, is_in};

impl<'a> Turn<'a> {
    // collect_answers/4, and behind the tuple the rest of the list.
    #[cycle(finding)]
    pub(crate) fn weigh(&mut self, stand: Weighing) -> Result<(), OutOfMemory>
        ensures { OnOk result (self.new ≡ weigh
            (behind_place self.old.own stand.attempt stand.candidates stand.place) stand self.old) }
    {
        let Weighing {
            attempt,
            place,
            candidates,
            mut answers,
            nodes,
        } = stand;
        let count = self.collect(attempt.app(), &mut answers, nodes.as_slice())?;
        if count < nodes.len() {
            let node = nodes[count];
            self.monitor(node)?;
            let nodes = Vec::from_slice(self.alloc, &nodes[count..])?;
            self.wait(Stand::ForWeight(Weighing {
                attempt,
                place,
                candidates,
                answers,
                nodes,
            }));
            return Ok(());
        }
        let group = group_at(self.own, attempt.app(), place);
        match self.chosen_of(group, answers.as_slice()) {
            Some(node) => self.is_to_start(attempt, node),
            None => self.behind_place(attempt, candidates, place),
        }
    }

    // The walk along the list behind the place of this number.
    #[cycle(finding)]
    #[tactic(auto, using(crate::proofs::Walk::past_end), unfolding(crate::specs::Choosing::find_start_node))]
    fn behind_place(
        &mut self,
        attempt: Attempt,
        candidates: Vec<Node>,
        place: usize,
    ) -> Result<(), OutOfMemory>
        ensures { OnOk result (self.new
            ≡ behind_place self.old.own attempt candidates.items place self.old) }
    {
        if place < places_of(self.own, attempt.app()).len() {
            return self.find_start_node(attempt, candidates, place + 1);
        }
        self.wait(Stand::ForAnyStart(attempt));
        Ok(())
    }

    // find_any_node/5
    #[cycle(finding)]
    fn ask_weights(
        &mut self,
        attempt: Attempt,
        candidates: Vec<Node>,
        place: usize,
    ) -> Result<(), OutOfMemory>
        ensures { OnOk result (self.new ≡ ask_weights
            (behind_place self.old.own attempt candidates.items place)
            attempt place candidates.items self.old) }
    {
        let here = self.here.node;
        let weight = self.cached_weight(attempt.app());
        let backwards = reversed(self.alloc, candidates.as_slice())?;
        self.tell_weight(attempt.app(), weight, backwards.as_slice())?;
        let mut answers = Vec::new(self.alloc);
        answers.push((weight, here))?;
        let nodes = Vec::from_slice(self.alloc, candidates.as_slice())?;
        self.weigh(Weighing {
            attempt,
            place,
            candidates,
            answers,
            nodes,
        })
    }

    // Of a tuple: it runs at this node of it, or the weights decide.
    #[cycle(finding)]
    fn at_tuple(
        &mut self,
        attempt: Attempt,
        candidates: Vec<Node>,
        place: usize,
        runner: Option<Node>,
    ) -> Result<(), OutOfMemory>
        ensures { OnOk result (self.new ≡ at_tuple
            (behind_place self.old.own attempt candidates.items place)
            attempt place candidates.items runner self.old) }
    {
        match runner {
            Some(node) => self.runs_elsewhere(attempt, node),
            None => self.ask_weights(attempt, candidates, place),
        }
    }

    // find_start_node/5, over the places from this number on.
    #[cycle(finding)]
    #[tactic(auto, unfolding(crate::specs::Choosing::find_start_node))]
    pub(crate) fn find_start_node(
        &mut self,
        attempt: Attempt,
        candidates: Vec<Node>,
        place: usize,
    ) -> Result<(), OutOfMemory>
        ensures { OnOk result (self.new ≡ find_start_node attempt candidates.items place self.old) }
    {
        let Some(written) = places_of(self.own, attempt.app()).get(place) else {
            self.wait(Stand::ForAnyStart(attempt));
            return Ok(());
        };
        if written.is_tuple() {
            let group = among(self.alloc, written.nodes(), candidates.as_slice())?;
            let runner = self.check_running(attempt.app(), group.as_slice());
            return self.at_tuple(attempt, candidates, place, runner);
        }
        match written.nodes() {
            [node, ..] if is_in(*node, candidates.as_slice()) => {
                let node = *node;
                if self.runs_there(attempt.app(), node) {
                    self.runs_elsewhere(attempt, node)
                } else {
                    self.is_to_start(attempt, node)
                }
            }
            _ => self.find_start_node(attempt, candidates, place + 1),
        }
    }
}
