//! Laws of the definitions that the contract of [`own_files`](crate::own_files) cites, beside what a cluster keeps. Each function
//! does nothing: its contract is the law.

ghost use Rattle.rh_otp_file.specs.Laws.{EachNodeHasItsOwn, EntriesAreKept, WaitsAreMeant};

/// Of the cluster of any text, each node has the file that its own term says, in the order of the terms.
pub fn each_node_has_its_own()
    ensures { EachNodeHasItsOwn }
{}

/// A cluster's reader keeps the entries that the node's own file has, in their order, of each place its nodes alone.
pub fn entries_are_kept()
    ensures { EntriesAreKept }
{}

/// Of a wait that a cluster's reader accepts, a node's own file says the same, but that 0 and a written `undefined` are refused.
pub fn waits_are_meant()
    ensures { WaitsAreMeant }
{}
