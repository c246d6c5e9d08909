//! Laws of the order in which messages arrive. Each function does nothing: its contract is the law.

ghost use Rattle.rh_otp_orders.specs.Confluence.{OrderlyNodesEndAlike, EveryPickEndsAlike};
ghost use Rattle.rh_otp_orders.specs.Orders.{MessagesAtTwoNodesCommute, OwnMattersLeaveAlone, AlikeGoOnAlike, AlikeMoveAlike, AlikeReachAlike, WhicheverComesFirst};

/// Messages that arrive at two different nodes can arrive in either order: all that nodes know is the same behind both, and so are the
/// messages of each pair of processes, and of each node its timers, events and slower things. It is so unless one of the two connects
/// nodes, takes or frees a lock, ends a node, or comes to the bound of twenty answers, or both are for calls of an operator.
pub fn messages_at_two_nodes_commute()
    ensures { MessagesAtTwoNodesCommute }
{}

/// What controllers and boot scripts do at any message, and kernel_config where it sees a node, touches nothing that nodes share. So at
/// two nodes such messages always commute.
pub fn own_matters_leave_alone()
    ensures { OwnMattersLeaveAlone }
{}

/// What comes of systems that are alike is alike: a message that arrives in the one can arrive in the other, and both are alike behind
/// it, whatever it does.
pub fn alike_go_on_alike()
    ensures { AlikeGoOnAlike }
{}

/// So it is with every move: what is possible in the one of two systems that are alike is possible in the other, and both are alike
/// behind it.
pub fn alike_move_alike()
    ensures { AlikeMoveAlike }
{}

/// Whatever comes of the one of two systems that are alike, something alike comes of the other, and it is at rest where the one is.
pub fn alike_reach_alike()
    ensures { AlikeReachAlike }
{}

/// So of two messages for two nodes, of which neither changes what the nodes share, it makes no difference to all that follows which
/// comes first.
pub fn whichever_comes_first()
    ensures { WhicheverComesFirst }
{}

/// Where in all that comes of a state any two moves that are possible can be made one behind the other, every order of moves ends alike, and
/// where one comes to rest, none has more moves.
pub fn orderly_nodes_end_alike()
    ensures { OrderlyNodesEndAlike }
{}

/// So a command on such nodes comes to the same by every order that [`settle`](rh_otp_system::System::settle) is told.
pub fn every_pick_ends_alike()
    ensures { EveryPickEndsAlike }
{}
