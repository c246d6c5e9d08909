//! What a system is read by.

ghost use Rattle.std.specs.Prelude.{◌≡◌};

use crate::system::System;
use rh_model::Cluster;

impl<'a> System<'a> {
    /// The cluster.
    pub fn cluster(&self) -> &Cluster
        ensures { result.now ≡ self.now.cluster }
    {
        self.cluster
    }

    /// The number of the last call.
    pub fn last_call(&self) -> u32
        ensures { result ≡ self.now.last_call }
    {
        self.net.last_call
    }
}
