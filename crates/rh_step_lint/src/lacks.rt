//! The dependencies of which findings speak.

ghost use Rattle.std.specs.Prelude.{◌≡◌};
ghost use Rattle.rh_step_findings.specs.Lacks.{boot_place, boots_before, lacks_so, lacking_so};

use crate::candidates::comes_before;
use crate::step::Step;
use rh_model::{App, Node};
use rh_step_findings::Lack;

impl<'a> Step<'a> {
    // The place of an application in a node's boot list.
    fn boot_place(&self, node: Node, app: App) -> Option<usize>
        ensures { result ≡ boot_place self.now.state.cluster node app }
    {
        self.boot_list(node)
            .iter()
            .position(|entry| app.0 == entry.0.0)
    }

    // Does a node boot an application before another one?
    #[tactic(auto, unfolding(rh_step_findings::specs::Lacks::boots_before))]
    fn boots_before(&self, node: Node, dependency: App, app: App) -> bool
        ensures { result ≡ boots_before self.now.state.cluster node dependency app }
    {
        comes_before(
            self.boot_place(node, dependency),
            self.boot_place(node, app),
        )
    }

    // Is a dependency lacking so?
    #[tactic(auto, unfolding(rh_step_findings::specs::Lacks::lacks_so))]
    fn lacks_so(&self, lack: Lack, node: Node, app: App, dependency: App) -> bool
        ensures { result ≡ lacks_so self.now.state self.now.event lack node app dependency }
    {
        match lack {
            Lack::Forbidden => {
                self.is_local(dependency)
                    && self.boots_before(node, dependency, app)
                    && !self.allows(node, dependency)
            }
            Lack::Later => !self.boots_before(node, dependency, app),
            Lack::Elsewhere => {
                !self.is_local(dependency)
                    && (!self.is_best(dependency, node) || self.stays(dependency))
            }
            Lack::Gone => !self.runs(node, dependency),
        }
    }

    /// The first of the dependencies that is, in written order.
    #[tactic(auto, unfolding(rh_step_findings::specs::Lacks::lacking_so))]
    pub(crate) fn lacking_so(&self, lack: Lack, node: Node, app: App) -> Option<App>
        ensures { result ≡ lacking_so self.now.state self.now.event lack node app }
    {
        let needs = self.needs(app);
        'needs: for dependency in needs {
            if self.lacks_so(lack, node, app, *dependency) {
                return Some(*dependency);
            }
        }
        None
    }
}
