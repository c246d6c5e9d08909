//! The help of `explore`, which says what is asked by the manual's rules and on live nodes.

pub static EXPLORE_ABOUT: &str = "Says what no sequence of the events that may come can do";

pub static EXPLORE_AFTER_HELP: &str = "\
The input is that of `rehearse run` on standard input. Behind its script, which
is the base, stands what may happen and what is asked:

./rehearse explore << 'EOF'
{node, a@x, [{kernel, [{distributed, [{web, 1000, [a@x, b@x]}]}]},
  {rehearse, [{boot, [{web, permanent}]}]}]}.
{node, b@x, [{kernel, [{distributed, [{web, 1000, [a@x, b@x]}]}]},
  {rehearse, [{boot, [{web, permanent}]}]}]}.
{application, web, []}.
===
boot a@x
boot b@x
may crash *
may boot *
may tick 1000
ask app web running or down a@x b@x
EOF

The base is answered as in `rehearse run`. From the state that is reached then
all lists of the events are tried that may come. States are merged that are
equal but for the clock, the incarnations and the start types, with timers
counted from now: they go on alike.

  may EVENT                  this event may come, as often as one likes: a
                             command from `boot` to `stop_all` of `rehearse run
                             --help`; `*` in place of a name stands for each
                             node, or each application
  may wait                   time may pass to the next timer that is due, as a
                             `tick` of so long
  steps K                    at most K events follow one another
  down K                     behind each event at most K nodes are not up
  ask app A running          is A running somewhere, in each state in which no
                             failover or sync timer is set?
  ask app A running or down N N ..
                             the same, but where none of these nodes is up
  ask always ..              in each state, also where a timer is set
  ask .. within D            in each state, at once or within D milliseconds in
                             which nothing happens but that timers fire
  ask app A once             in each state, does A run at no two nodes? `or
                             down N N ..` may stand behind it
  ask nothing hangs          in each state, does no process of a node wait for
                             another one, and has each call returned? By these
                             rules nothing hangs

Without `steps` any number of events may follow, without `down` all nodes may
be down, and where several say it the last counts. It tells

  explored K states deepest K up to K steps up to K down
                             how many states there are, of which no two are
                             alike, and how many events lead to the last; up to
                             K steps if longer lists were not tried, up to K
                             down if the bound leaves out some

and for each `ask`, in their order,

  holds                      in all these states
  fails in K                 not behind the K events that follow as commands:
                             no shorter list leads to such a state, whose
                             report stands behind them
  unfinished                 the last line, where there are more states than
                             `--states` says, or their keys take as many MiB as
                             `--memory` says, or where a limit (S4 or S7)
                             refuses an event: what is told is true up to as
                             many steps as the first line says

Time passes only by `may tick D` and `may wait`.

The states are expanded among as many threads as `--workers` says; what is told
is the same for any.

With `--rules otp25` the base is answered as in `rehearse run --rules otp25`,
and the lists of the events are tried on live nodes, shorter ones first, and
else in the order of the lines `may`. No states are merged, so lists are
counted. An event comes whatever a node answers to it. It doesn't where it
can't be given to a node or has no end. To wait is a tick to the next timer
that `show` tells, also to one that starts nothing any more, and while one is
told `ask app A running` isn't asked without `always`. A list has at most 255
events. It tells

  explored K lists up to K steps up to K down
                             how many lists were tried; up to K steps if all
                             lists of at most K events were, but not all longer
                             ones
  holds                      behind all lists that were tried
  fails in K                 not behind the K events that follow as commands,
                             but behind all lists before this one; the report
                             of live nodes stands behind them
  unfinished                 the last line, where an `ask` hasn't failed and
                             as many lists were tried as `--states` says, or
                             `steps` allows longer ones than 255 events

No list is tried once each `ask` has failed. `--pick` is the order in which
messages are taken, as in `rehearse run --help`. `--workers` takes no other
number than 1 there, and `--memory` says nothing.

All lines are read first. A line that is no command of the base and none of
these, or a name that the cluster hasn't, is told alone: `bad line K`. K counts
lines from 1 behind `===`, with blank lines and comments. The status is 9 where
an `ask` fails, and else 10 where it is unfinished.

With `--json` each answer, what was found and each `ask` is a line of JSON, for
programs.

docs/SCRIPTS.md explains each line, and the fields of JSON.

Examples:

  ./rehearse explore < examples/any-failures.txt
  ./rehearse explore --rules otp25 < examples/live-failures.txt";
