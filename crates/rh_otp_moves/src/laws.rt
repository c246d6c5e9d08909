//! The laws of permissions by which distributed applications start, stop or move. Each function does nothing: its contract is the law.

ghost use Rattle.rh_otp_moves.specs.Elsewhere.{PermitsElsewhereEndAlike};
ghost use Rattle.rh_otp_moves.specs.Moving.{ForbidsThatMoveEndAlike};
ghost use Rattle.rh_otp_moves.specs.Starting.{PermitsThatStartEndAlike};
ghost use Rattle.rh_otp_moves.specs.Stopping.{ForbidsThatStopEndAlike};

/// Where live nodes are at rest and no call is open, all that comes of a forbid of a distributed application is alike, in whatever order
/// its messages arrive, where the application stops by it: the node's dist_ac, if it takes whatever comes, runs it, and behind the forbid
/// knows of no node that may run it. It has synchronised with the others; nobody waits at it for a takeover, or for the end of an
/// application. The node sees all those that are alive and of the application's list, or of which its dist_ac knows. And each other node of
/// the list that is alive and has the application in its own `distributed` knows itself that it may not run it, if its dist_ac takes
/// whatever comes: so none starts it at the news of the forbid. The command doesn't wait for nodes that end by themselves, as no permit
/// does. No order has more moves than another one.
pub fn forbids_that_stop_end_alike()
    ensures { ForbidsThatStopEndAlike }
{}

/// So it is with a permit by which the application starts at the node: the node's dist_ac, if it takes whatever comes, doesn't run it, and
/// behind the permit finds its own node to be the first of the list that may run it, with no tuple before that. It has synchronised with
/// the others, nobody waits at it for a takeover, and the node sees those that are alive and of the list, or of which its dist_ac knows. So
/// it is whatever comes of the permit: whether the application starts there, moves there from another node, runs there already as the
/// controller knows, was never started there, or fails to start, which may end the node.
pub fn permits_that_start_end_alike()
    ensures { PermitsThatStartEndAlike }
{}

/// So it is with a permit of an application that runs elsewhere: the node's dist_ac, if it takes whatever comes, doesn't run it, and behind
/// the permit knows that it runs at the first node of the list that may run it, with no tuple before that one; or, where its own node is
/// none of those of the list that may, at any. It has synchronised with the others, and the node sees those that are alive and of the list.
pub fn permits_elsewhere_end_alike()
    ensures { PermitsElsewhereEndAlike }
{}

/// So it is with a forbid by which the application moves to another node. The node's controller lists it as started, or as being started;
/// the node's dist_ac, if it takes whatever comes, has started and runs it, and behind the forbid knows that the other node may run it.
/// That one is of the list, once, is alive and has a dist_ac. Where its dist_ac takes whatever comes and knows that its node may run it, it
/// doesn't run it, and behind the forbid finds its own node to be the first of the list that may, with no tuple before that; nobody waits
/// there for a takeover, and that node sees those that are alive and of which its dist_ac knows. The dist_ac of any further node of the
/// list that is alive and has one takes whatever comes, and knows that its own node may not run the application, if the node has that in
/// its own `distributed`. The dist_ac of the node at which it is forbidden has synchronised with the others, and that node sees those that
/// are alive and of the list. So it is, too, where the start at the other node fails, since what the application needs doesn't run there,
/// which may end that node. Not covered are moves by which a further node looks whether to start it, too.
pub fn forbids_that_move_end_alike()
    ensures { ForbidsThatMoveEndAlike }
{}
