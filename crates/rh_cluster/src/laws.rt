//! Laws of the clusters that are read. The functions do nothing: their contracts are the laws.

ghost use Rattle.rh_cluster.specs.Laws.{ClustersAreWithin, SkippedTellsNothing};

/// The lists of the cluster of any text fit together, and each number in them is one of the cluster's.
pub fn clusters_are_within()
    ensures { ClustersAreWithin }
{}

/// What is skipped tells nothing: the cluster of a file's terms, or their first fault, is that of what is kept of them.
pub fn skipped_tells_nothing()
    ensures { SkippedTellsNothing }
{}
