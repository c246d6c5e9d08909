//! How the node of a tuple is chosen: by the weights that the candidates tell.

ghost use Rattle.std.specs.Prelude.{◌≡◌, IfOk, OnOk, drop};
ghost use Rattle.rh_model.specs.ClusterView.{name_of};
ghost use Rattle.rh_otp_dist.specs.Choosing.{tell_weight, told_by, is_lighter, lighter, is_eligible, chosen_of, answers_from, left_of};

use crate::state::Told;
use crate::turn::Turn;
use rh_base::OutOfMemory;
use rh_model::{App, Cluster, Node, is_in};
use rh_otp_model::Message;

// The weight that a node has told of the application.
fn told_by(told: &[Told], app: App, node: Node) -> Option<u32>
    ensures { result ≡ told_by told.now app node }
{
    for one in told {
        if one.node.0 == node.0 {
            return if one.app.0 == app.0 {
                Some(one.weight)
            } else {
                None
            };
        }
    }
    None
}

// The name of a node, or nothing for a number that no node has.
fn name_of(cluster: &Cluster, node: Node) -> &str
    ensures { result.now ≡ name_of cluster.now node }
{
    cluster.is_within();
    if (node.0 as usize) < cluster.node_count() {
        cluster.node_name(node)
    } else {
        ""
    }
}

// Does an answer come before another one?
fn is_lighter(cluster: &Cluster, one: (u32, Node), other: (u32, Node)) -> bool
    ensures { result ≡ is_lighter cluster.now one other }
{
    one.0 < other.0 || (one.0 == other.0 && name_of(cluster, one.1) < name_of(cluster, other.1))
}

// The lighter of the two.
fn lighter(cluster: &Cluster, best: Option<(u32, Node)>, answer: (u32, Node)) -> (u32, Node)
    ensures { result ≡ lighter cluster.now best answer }
{
    match best {
        None => answer,
        Some(best) => {
            if is_lighter(cluster, answer, best) {
                answer
            } else {
                best
            }
        }
    }
}

impl<'a> Turn<'a> {
    // May an answer be chosen?
    fn is_eligible(&self, group: &[Node], answer: (u32, Node)) -> bool
        ensures { result ≡ is_eligible self.now.state group.now answer }
    {
        is_in(answer.1, group) && is_in(answer.1, self.state.known.as_slice())
    }

    // The node of a tuple that is known here and has the least weight.
    pub(crate) fn chosen_of(&self, group: &[Node], answers: &[(u32, Node)]) -> Option<Node>
        ensures { result ≡ chosen_of self.now.cluster self.now.state group.now answers.now }
    {
        let mut best = None;
        for answer in answers {
            if self.is_eligible(group, *answer) {
                best = Some(lighter(self.cluster, best, *answer));
            }
        }
        best.map(|answer| answer.1)
    }

    // These candidates are told its weight.
    pub(crate) fn tell_weight(
        &mut self,
        app: App,
        weight: u32,
        nodes: &[Node],
    ) -> Result<(), OutOfMemory>
        ensures { OnOk result (self.new ≡ tell_weight app weight nodes.now self.old) }
    {
        let here = self.here.node;
        for node in nodes {
            if node.0 != here.0 {
                self.send_to(*node, Message::Weight(app, weight, here))?;
            }
        }
        Ok(())
    }

    // How many of these nodes have answered, up to the first that hasn't; their answers are added.
    pub(crate) fn collect(
        &self,
        app: App,
        answers: &mut Vec<(u32, Node)>,
        nodes: &[Node],
    ) -> Result<usize, OutOfMemory>
        ensures answers { OnOk result (answers.new.items
            ≡ answers_from self.now.here.node self.now.state app answers.old.items nodes.now) }
        ensures left { IfOk result (λ count. drop count nodes.now
            ≡ left_of self.now.here.node self.now.state app nodes.now) }
    {
        for (count, node) in nodes.iter().enumerate() {
            if node.0 != self.here.node.0 {
                match told_by(self.state.tmp_locals.as_slice(), app, *node) {
                    Some(weight) => answers.push((weight, *node))?,
                    None => return Ok(count),
                }
            }
        }
        Ok(nodes.len())
    }
}
