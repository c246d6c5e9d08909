//! Laws of what live nodes do. Each function does nothing: its contract is the law.

ghost use Rattle.rh_otp_laws.specs.Acting.{CommandsAreReached};
ghost use Rattle.rh_otp_laws.specs.Hanging.{SettledStays, SettlingAgainChangesNothing};
ghost use Rattle.rh_otp_laws.specs.Knowing.{MovesStayAtTheirNode, EndsChangeMonitorsAlone};
ghost use Rattle.rh_otp_laws.specs.Lives.{LivesAreCounted, EndedStaysEnded, EndsAreTold, AliveAreListed};
ghost use Rattle.rh_otp_laws.specs.Locking.{OneNameHoldsTheLock};
ghost use Rattle.rh_otp_laws.specs.Messages.{MessagesKeepTheirOrder};
ghost use Rattle.rh_otp_laws.specs.Starting.{StartsWhereItMay};
ghost use Rattle.rh_otp_laws.specs.Time.{TimersAreNeverCancelled, TimersThatAreDueFire, TimersFireInTime, TimeNeverGoesBack, TicksEndInTime};

/// What [`settle`](rh_otp_system::System::settle) and [`tick`](rh_otp_system::System::tick) do are moves, timers that fire and time that
/// passes, one after the other: what holds in all that live nodes reach holds behind them.
pub fn commands_are_reached()
    ensures { CommandsAreReached }
{}

/// Between two processes messages keep their order: the message that arrives is the first of its pair of processes on their way, the
/// others of each pair stand as they stood, and what is sent meanwhile stands behind them.
pub fn messages_keep_their_order()
    ensures { MessagesKeepTheirOrder }
{}

/// In any state that live nodes reach, at each node at most one name has `global`'s lock: all that synchronise, or one process alone.
pub fn one_name_holds_the_lock()
    ensures { OneNameHoldsTheLock }
{}

/// Whatever nodes do, and whatever a command begins with, no timer is cancelled, and the clock stands: new timers come behind those that
/// are set, and are due later than now.
pub fn timers_are_never_cancelled()
    ensures { TimersAreNeverCancelled }
{}

/// Where time passes exactly the timers that are due next fire, in the order in which they were set, and all else stays as it is.
pub fn timers_that_are_due_fire()
    ensures { TimersThatAreDueFire }
{}

/// In any state that live nodes reach no timer is overdue: it is due now, or later.
pub fn timers_fire_in_time()
    ensures { TimersFireInTime }
{}

/// In any state that live nodes reach, whatever happens next leaves the clock where it is, or moves it on.
pub fn time_never_goes_back()
    ensures { TimeNeverGoesBack }
{}

/// Behind a tick that comes to an end the clock stands where it was to, and all timers that were due until then have fired.
pub fn ticks_end_in_time()
    ensures { TicksEndInTime }
{}

/// A move is one node's own: at every other node all that its processes know is as it was. So of what changes elsewhere a node learns
/// only by a move of its own, as by a message that arrives there.
pub fn moves_stay_at_their_node()
    ensures { MovesStayAtTheirNode }
{}

/// The end of a node changes at the others nothing but their monitors of it, before a message of it arrives; and all that it puts on its
/// way tells dist_acs of that end.
pub fn ends_change_monitors_alone()
    ensures { EndsChangeMonitorsAlone }
{}

/// The number of a node's lives rises by one where it begins, and by nothing else; and a node that is down stays so until it begins.
pub fn lives_are_counted()
    ensures { LivesAreCounted }
{}

/// A process that isn't there any more never is again: a message, a timer or an answer for it is lost.
pub fn ended_stays_ended()
    ensures { EndedStaysEnded }
{}

/// An observer sees the end of each node that goes down.
pub fn ends_are_told()
    ensures { EndsAreTold }
{}

/// In any state that live nodes reach, the list of those that are alive has exactly these, and each once.
pub fn alive_are_listed()
    ensures { AliveAreListed }
{}

/// Where nothing can move nothing is on its way, and all stays as it is until a command begins: a hang is a fact of the state.
pub fn settled_stays()
    ensures { SettledStays }
{}

/// Where nothing can move, settling once more changes nothing but that it forgets how often nodes have answered one another.
pub fn settling_again_changes_nothing()
    ensures { SettlingAgainChangesNothing }
{}

/// At the beginning of a start, and when it looks for a node once more, a dist_ac doesn't tell its controller to start an application that
/// isn't of its node's own list, or that the node may not run, as far as it knows; and when weights have come, none that isn't of the list.
/// (A takeover that an operator calls is told whatever these say.)
pub fn dist_ac_starts_where_it_may()
    ensures { StartsWhereItMay }
{}
