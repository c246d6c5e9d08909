//! The readers of a cluster, and copies.

use crate::made::{HERE, LAB, SERVICE, SIDE, cluster, is_lab};
use rh_cluster::{Cluster, Dep, Node, SyncWait, read_cluster};
use rh_marks::{Answer, begin, end};
use std::alloc::Global;

/// What comes of the call of this name, if it is here.
pub fn answer(alloc: Global, name: &str) -> Option<Answer> {
    if name == "read_cluster" {
        return Some(call_read_cluster(alloc));
    }
    let cluster = cluster(alloc)?;
    of_cluster(alloc, &cluster, name)
}

// The same of a call of that cluster.
fn of_cluster(alloc: Global, cluster: &Cluster, name: &str) -> Option<Answer> {
    if name == "Cluster::copy" {
        return Some(call_copy(alloc, cluster));
    }
    begin(alloc);
    let told = is_read(cluster, name);
    end(alloc);
    Some(Answer::of_call(told?))
}

// Whether a reader of this name answers as it has to.
fn is_read(cluster: &Cluster, name: &str) -> Option<bool> {
    if let Some(is_right) = is_of_whole(cluster, name) {
        Some(is_right)
    } else if let Some(is_right) = is_of_search(cluster, name) {
        Some(is_right)
    } else {
        is_of_part(cluster, name)
    }
}

// The same of one of a node or of an application.
fn is_of_part(cluster: &Cluster, name: &str) -> Option<bool> {
    if !is_lab(cluster) {
        return None;
    }
    if let Some(is_right) = is_of_node(cluster, name) {
        Some(is_right)
    } else if let Some(is_right) = is_of_wait(cluster, name) {
        Some(is_right)
    } else if let Some(is_right) = is_of_app(cluster, name) {
        Some(is_right)
    } else {
        is_of_place(cluster, name)
    }
}

fn call_read_cluster(alloc: Global) -> Answer {
    begin(alloc);
    let read = read_cluster(alloc, LAB.as_bytes());
    end(alloc);
    match read {
        Ok(cluster) => Answer::of_call(is_lab(&cluster)),
        Err(fault) => {
            if fault.is_memory() {
                Answer::Refused
            } else {
                Answer::Changed("fault")
            }
        }
    }
}

fn call_copy(alloc: Global, cluster: &Cluster) -> Answer {
    begin(alloc);
    let copy = cluster.copy(alloc);
    end(alloc);
    match copy {
        Ok(copy) => Answer::of_call(are_same(&copy, cluster)),
        Err(_) => Answer::Refused,
    }
}

fn are_same(copy: &Cluster, cluster: &Cluster) -> bool {
    copy.same(cluster)
}

// Whether a reader of this name answers as it has to, if it is one of the whole cluster.
fn is_of_whole(cluster: &Cluster, name: &str) -> Option<bool> {
    if name == "Cluster::profile" {
        Some(cluster.profile() == 1)
    } else if name == "Cluster::node_count" {
        Some(cluster.node_count() == 3)
    } else if name == "Cluster::app_count" {
        Some(cluster.app_count() == 2)
    } else if name == "Cluster::platform_count" {
        Some(cluster.platform_count() == 3)
    } else {
        None
    }
}

// The same of one that looks for a name, a difference or local applications.
fn is_of_search(cluster: &Cluster, name: &str) -> Option<bool> {
    if name == "Cluster::node_of" {
        Some(cluster.node_of("n3@lab") == Some(Node(2)))
    } else if name == "Cluster::app_of" {
        Some(cluster.app_of("side") == Some(SIDE))
    } else if name == "Cluster::same" {
        Some(cluster.same(cluster))
    } else if name == "Cluster::locals" {
        Some(are_local(cluster))
    } else {
        None
    }
}

// Is the one application local, and the other not?
fn are_local(cluster: &Cluster) -> bool {
    cluster.locals().has(SIDE) && !cluster.locals().has(SERVICE)
}

// The same of one of a node.
fn is_of_node(cluster: &Cluster, name: &str) -> Option<bool> {
    if cluster.node_count() != 3 || cluster.app_count() != 2 || cluster.platform_count() != 3 {
        return None;
    }
    if name == "Cluster::node_name" {
        Some(cluster.node_name(HERE) == "n1@lab")
    } else if name == "Cluster::permitted" {
        Some(cluster.permitted(HERE, SERVICE))
    } else if name == "Cluster::permissions" {
        Some(cluster.permissions(Node(1)) == [false, true].as_slice())
    } else if name == "Cluster::is_platform" {
        Some(cluster.is_platform(HERE, 2))
    } else {
        None
    }
}

// The same of one of what a node waits for and starts.
fn is_of_wait(cluster: &Cluster, name: &str) -> Option<bool> {
    if cluster.node_count() != 3 || cluster.platform_count() != 3 {
        return None;
    }
    if name == "Cluster::mandatory" {
        Some(cluster.mandatory(HERE) == [Node(1)].as_slice())
    } else if name == "Cluster::optional" {
        Some(cluster.optional(HERE) == [Node(2)].as_slice())
    } else if name == "Cluster::sync_wait" {
        Some(cluster.sync_wait(HERE) == SyncWait::After(1_000))
    } else if name == "Cluster::boot" {
        Some(cluster.boot(HERE).len() == 2)
    } else {
        None
    }
}

// The same of one of an application.
fn is_of_app(cluster: &Cluster, name: &str) -> Option<bool> {
    if cluster.app_count() != 2 {
        return None;
    }
    if name == "Cluster::app_name" {
        Some(cluster.app_name(SERVICE) == "svc")
    } else if name == "Cluster::deps" {
        Some(cluster.deps(SERVICE).len() == 2)
    } else if name == "Cluster::dep_name" {
        Some(cluster.dep_name(Dep::Listed(SIDE)) == "side")
    } else if name == "Cluster::start_arg" {
        Some(cluster.start_arg(SERVICE).is_some())
    } else if name == "Cluster::phases" {
        Some(cluster.phases(SERVICE))
    } else {
        None
    }
}

// The same of one of where an application can run, and of what it needs and touches.
fn is_of_place(cluster: &Cluster, name: &str) -> Option<bool> {
    if cluster.node_count() != 3 || cluster.app_count() != 2 {
        return None;
    }
    if name == "Cluster::spread" {
        Some(cluster.spread(SERVICE).is_some())
    } else if name == "Cluster::group_of" {
        Some(cluster.group_of(SERVICE, Node(1)) == Some(1))
    } else if name == "Cluster::is_home" {
        Some(cluster.is_home(SERVICE, HERE))
    } else if name == "Cluster::needs" {
        Some(cluster.needs(SERVICE) == [SIDE].as_slice())
    } else if name == "Cluster::touched_by" {
        Some(is_touched(cluster))
    } else {
        None
    }
}

// Does a move of the side application touch the service, and not the other way round?
fn is_touched(cluster: &Cluster) -> bool {
    cluster.app_count() == 2
        && cluster.touched_by(SIDE).has(SERVICE)
        && !cluster.touched_by(SERVICE).has(SIDE)
}
