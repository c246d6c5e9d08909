//! Laws of commands on systems that are alike. Each function does nothing: its contract is the law.

ghost use Rattle.rh_otp_commands.specs.Commands.{CommandsBeginAlike, CommandsEndAlike, TicksEndAlike};

/// What a command begins with leaves systems alike that are alike: a node that begins, one that ends at once, a call of an operator, timers
/// that fire; and so does what stands between two commands.
pub fn commands_begin_alike()
    ensures { CommandsBeginAlike }
{}

/// Of two systems that are alike, of which live nodes reach the one, each settles by an order of its own: where all that comes of the one
/// ends alike, the one comes to an end within so many moves if and only if the other does, and then both are alike behind it.
pub fn commands_end_alike()
    ensures { CommandsEndAlike }
{}

/// So it is where time passes, if all that comes of its beginning ends alike, and all that comes of the timers each time that some fire.
pub fn ticks_end_alike()
    ensures { TicksEndAlike }
{}
