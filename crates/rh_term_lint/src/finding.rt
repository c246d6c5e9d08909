//! What is found.

use crate::names::ReadName;
use rh_base::Str;

/// What the terms of a cluster file say that wasn't meant so. `term` is the place of the node's or the application's term in the
/// file's list of terms, from 0.
#[derive(Drop)]
pub enum TermFinding {
    /// No term is `{profile, _}`, so a permission that is given back moves nothing, as in no live OTP (ours).
    NoProfile,
    /// A section of a node that is skipped, and near one that is read (config(4)).
    NearSection {
        term: usize,
        written: Str,
        meant: ReadName,
    },
    /// A parameter of a node's `kernel` that is skipped, and near one that is read (kernel(6)).
    NearParameter {
        term: usize,
        written: Str,
        meant: ReadName,
    },
    /// A node's `kernel` has `{sync_nodes_timeout, undefined}` written out, which ends a live node (kernel(6)).
    UndefinedWritten {
        term: usize,
    },
    /// A key of an application that is skipped, and near one that is read (app(4)).
    NearKey {
        term: usize,
        written: Str,
        meant: ReadName,
    },
}
