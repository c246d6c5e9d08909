//! The texts of help.

pub static ABOUT: &str =
    "Rehearses maintenance and failures of an Erlang cluster, forwards and backwards";

pub static AFTER_HELP: &str = "\
Standard input is a cluster file, a line `===`, and a script. From the top of
the repository this rehearses a crash, and takes it back:

./rehearse run << 'EOF'
{node, a@x, []}.
{application, web, []}.
===
boot a@x
start a@x web permanent
crash a@x
undo
show
EOF

`rehearse run --help` lists the commands of a script, `rehearse check --help`
says what a cluster file holds, `rehearse lint --help` what may be wrong with
it, `rehearse story --help` how a script is printed with its answers, `rehearse
verify --help` how it is tested, `rehearse sessions --help` how several
operators share one cluster, `rehearse sweep --help` how many failures are tried
from one state, and `rehearse explore --help` how all of them are. Each line
that is printed is explained in docs/SCRIPTS.md; what a live OTP does otherwise
is in docs/LIVE_OTP.md.

Exit status:

  0  done; refused commands are among the answers
  1  the command line was refused, or help was asked for
  2  the cluster file was refused
  3  a line of the script is no command
  4  the input can't be read, or the output can't be written
  5  out of memory
  6  the sweep was refused, or the sessions made no one history
  9  `run` was asked to be strict, and a step was refused; `verify` found what
     isn't as the script expects, or `explore` what isn't as asked; or `lint`
     found an error or a warning
 10  `explore` is unfinished: there may be more than was searched";

pub static RUN_ABOUT: &str = "Reads a cluster file and a script, and answers each command";

pub static RUN_AFTER_HELP: &str = "\
A cluster file has a term for each node, as `{node, a@x, []}.`, and for each
application, as `{application, web, []}.`; the line `===` ends it. Each line
behind it is a command, is blank, or begins with `#`:

  boot N          starts node N                     boot a@x
  crash N         ends node N without a warning     crash a@x
  tick D          lets D milliseconds pass          tick 5000
  start N A T     starts application A at node N    start a@x web permanent
  stop N A        stops A at N                      stop a@x web
  permit N A B    lets A run at N, or forbids it    permit a@x web false
  takeover N A T  moves A to N from where it runs   takeover a@x web permanent
  exit N A R      A, running at N, ends by itself   exit a@x web abnormal
  start_all A T   starts A at all its nodes         start_all web permanent
  stop_all A      stops A at all its nodes          stop_all web
  undo            takes the last step back          undo
  redo            makes the next step again         redo
  undo_all        takes all steps back              undo_all
  redo_all        makes all steps again             redo_all
  show            shows the state of the cluster    show

N and A are names of the cluster file, without quotes. D is 1 to 10^12, and the
clock goes up to 10^12 milliseconds; it moves by `tick` alone. B is true or
false, R normal or abnormal. T says what the exit of A does to its node:
permanent ends it, transient ends it where the exit is abnormal, temporary lets
it go on. `crash` stands for an orderly stop of the node too. `start_all` and
`stop_all` are for a distributed application: one step starts it at each node
of its list that is up, or stops it at each node at which it is started. In a
file that begins with `{profile, 2}.`, `permit N A true` pulls A to N from a
later group of its list; without it, nothing moves but what runs nowhere.

A step is answered by `ok` and by what follows from it, one line each:

  up N                    node N is up
  ended N                 it has ended
  started A N normal      A runs at N
  started A N failover M  A runs at N in place of the one that was lost with M
  started A N takeover M  A runs at N in place of the one that ran at M
  stopped A N             A runs no more at N
  waits A N               A is started at N, and waits there

or by `refused` and the reason; a refused step changes nothing. `undo_all` and
`redo_all` tell the number of steps. `show` tells the time in milliseconds, each
node with its mode (down, waiting, up), how often it was started, and what runs,
waits and is forbidden there, each timer that is set with the time when it is
due, and where each distributed application stands:

  app A quiet      it is to run nowhere: not started, stopped, or ended
  app A wanted     it is to run, and no node can run it now; `wanted N` where it
                   was lost with N
  app A running N  it runs at N
  app A lost N     it ran at N, which ended; its failover timer is set

The first line that is no command ends the rehearsal with `bad line K`. K counts
lines from 1 behind `===`, with blank lines and comments.

With `--echo` each command is printed before its answer, as it stands behind
`> `; so is a line that is no command. With `--strict` the text is the same, but
the exit status is 9 where a step was refused and nothing else ends the
rehearsal. An `undo` with no step to take back is no refused step.

With `--json` each answer is a line of JSON, for programs, and it goes with
neither of the other two.

With `--interactive` each line is answered as soon as it has come, before more
is read: at a terminal, or over a pipe by which another program talks. The text
is the same. It goes with `--json`, and with neither of the first two. Of
`./rehearse run --interactive FILE..` standard input goes on behind the files.

With `--rules otp25` the same input is answered as live nodes of OTP 25 do, and
not by the manual's rules: a call can be answered late, or never. Messages of
different processes may come in any order there: they are taken as they were
sent; with `--pick last` the last one first; with `--pick N` as N decides, from
1 to 2147483646. With `--strict` the exit status is 9 where a step isn't
answered by `ok`. What such nodes tell beside the lines above:

  error WHY            what the call answered, as Erlang writes it
  no answer            the call is still open
  answered COMMAND: .. a call of an earlier command was answered
  failed A N WHY       the start of A by N's boot script has failed
  pending A N          A is being started at N, and that hasn't ended
  endless              nodes would send messages for ever: nothing has changed

`show` tells of each node for what it waits that doesn't come by itself, as
`blocked dist_ac start web for n1@lab`, and which calls are open.
docs/LIVE_OTP.md has these rules.

docs/SCRIPTS.md explains each line, the fields of JSON, and what each command
needs; docs/RULES.md what follows from it.

Examples:

  ./rehearse run < examples/repaired-node.txt
  ./rehearse run --pick last < examples/failover-and-takeover.txt
  ./rehearse run --echo < examples/repaired-node.txt
  ./rehearse run --strict < examples/rolling-restart.txt";

pub static CHECK_ABOUT: &str = "Reads a cluster file alone, and says whether it is one";

pub static CHECK_AFTER_HELP: &str = "\
A cluster file is a list of terms, each followed by a dot:

  {profile, Number}.            before all others, or left out: the rules by
                                which it is rehearsed, 1 (if left out) or 2
  {node, Name, SysConfig}.      a node, with the list of its sys.config file
  {application, Name, Keys}.    an application, with the list of its .app file

Of the section `kernel` of SysConfig are read:

  distributed           [{App, Nodes}] or [{App, Timeout, Nodes}]; in Nodes a
                        tuple of names ranks its nodes alike
  sync_nodes_mandatory  [Node]
  sync_nodes_optional   [Node]
  sync_nodes_timeout    Timeout, infinity or undefined
  permissions           [{App, Bool}]: whether App may run there

and of the section `rehearse`, which is this program's own:

  boot                  [{App, Type}]: what the boot script starts, in order;
                        Type is permanent, transient or temporary
  platform              [Name]: what runs at the node and isn't rehearsed

Timeout is 0 to 10^12 milliseconds. Of the keys applications, mod and
start_phases are read. All else is skipped; but floats, maps, binaries and the
like are refused in skipped parts too. A line `===` ends the file; a script
behind it is ignored. At most 32 nodes and 64 applications; in profile 2, where
a permission given back pulls an application back, as live, 64 and 128.

The answer is `ok K nodes K applications`, or `cluster refused` and the first
fault with its code, as `C5 unknown_name` or `C1 T1 syntax line 3`: see
docs/SCRIPTS.md. docs/CLUSTER_FILES.md has the format. With `--json` it is a
line of JSON, with the names of the file.

Example:

  ./rehearse check < examples/three-nodes.txt";

pub static STORY_ABOUT: &str = "Prints a script again, with its answers as comments";

pub static STORY_AFTER_HELP: &str = "\
The input is that of `rehearse run`. Each line of the script is printed as it
stands, and behind each command what it was answered:

  #= TEXT  a line of the answer, as `rehearse run` prints it
  #@ TIME  within a tick: the lines below it were told at this time, in
           milliseconds, when a timer fired
  #- WHY   why the application above it waits, a line for each reason; or for
           whom the node that was booted waits
  #| TEXT  at the end, behind a blank line: where a distributed application ran,
           from when to when, and for how long nowhere since it first ran

What is printed is a script again. Comment lines that an earlier story wrote are
left out: those that begin with `#= `, `#@ `, `#- ` or `#| `, and a blank line
before a `#| `. All other lines stay byte for byte, and with --whole the output
can take the input's place.

At the first line that is no command the answers end with `#= bad line K`, and
the rest stands as it was, without a table. K counts lines from 1 behind
`===`, with blank lines and comments. docs/SCRIPTS.md explains each line.

With `--rules otp25` the answers are those of live nodes of OTP 25, as `rehearse
run --rules otp25` tells them, in the order of messages that `--pick` says. No
times are told and no table; and behind a command stands what hangs since then:

  #- N blocked ..  for what a process of node N waits that doesn't come by
                   itself, as the report tells it

Examples:

  ./rehearse story < examples/repaired-node.txt
  ./rehearse story --whole < examples/failover-and-takeover.txt
  ./rehearse story --rules otp25 < examples/repaired-node.txt";

pub static VERIFY_ABOUT: &str = "Answers a script, and compares what comes with what it expects";

pub static VERIFY_AFTER_HELP: &str = "\
A cluster file, a line `===` and a script, as for `run`. Behind a command may
stand what is expected of it, in comments:

  #= TEXT   a line of its answer. These lines, up to the next command, are all
            lines of the answer and no other, in order, each exactly
  #? TEXT   a line that the report behind it has, as `show` would print it;
            blanks at the front don't count

A command without them may be answered anything. For each of which something
doesn't hold is told:

  line L: COMMAND                line L of the whole input, as an editor counts
    wanted TEXT                  each line of the answer that was wanted,
    came TEXT                    and each that came, where they aren't the same
    wanted in the report TEXT    each line that the report hasn't

The last line is `ok K of N commands checked`, where K commands had an
expectation, or `differs J of K`, with status 9. An expectation before the
first command differs by itself. A line that is no command ends it as `run`
does, with `bad line K` and status 3.

With `--rules otp25` answers and reports are those of live nodes of OTP 25, as
`rehearse run --rules otp25` tells them, in the order of messages that `--pick`
says.

Example:

./rehearse verify << 'EOF'
{node, a@x, []}.
===
boot a@x
#= ok
#= up a@x
#? node a@x up 1
EOF";

pub static LINT_ABOUT: &str = "Lists what is wrong with a cluster file and a script, and where";

pub static LINT_AFTER_HELP: &str = "\
A cluster file, a line `===` and a script, as for `run`; the script may be left
out. Each finding is a line, in the order of the lines:

  L: KIND CODE: WORDS   line L of the whole input, as an editor counts; where
                        no line is known, `L: ` is left out

KIND is `error` for what can't be read or isn't there: the fault that `check`
tells, by its code, a line that is no command, a name that the cluster hasn't.
A `warning` can't be what was meant, or a live OTP takes it otherwise and an
operator has to act; a `hint` is what a live OTP may take otherwise, or another
command that `run` refuses. Of one line errors come first, and hints last. The
last line is `N errors, N warnings, N hints`, with status 9 where there is an
error or a warning. docs/LINT.md has all codes.

Behind the first warning of a step that hangs on live nodes no more is told of
the steps, since these have another past there. `--all` tells it nevertheless.
With `--json` each line is an object, with the fields `line`, `kind`, `code`,
`words` and `path`; the last one has `errors`, `warnings` and `hints`.

With `--rules otp25` the commands are made on live nodes of OTP 25, as by
`rehearse run --rules otp25`, in the order of messages that `--pick` says. What
comes of each stands in place of what may: where something begins to hang, an
application to run twice, a call has no answer, a step no end, a start fails, or
the answer isn't `ok`. All steps are told of, so `--all` doesn't go with it.

Example:

./rehearse lint << 'EOF'
{profile, 2}.
{node, a@x, []}.
===
boot a@y
EOF";

pub static SESSIONS_ABOUT: &str = "As run, for several sessions that share one cluster";

pub static SESSIONS_AFTER_HELP: &str = "\
The input is that of `rehearse run` on standard input, but each command stands
behind the number of its session, one digit from 1 to 8:

./rehearse sessions << 'EOF'
{node, a@x, []}.
{node, b@x, []}.
===
1 boot a@x
2 boot b@x
1 crash a@x
2 undo
EOF

Each session is a thread of its own, and makes its commands in their order; how
the sessions take turns, chance decides. There is one cluster and one trail, so
an undo takes back the last step, whoever made it. When all have ended, the log
is told: for each command, in the order in which they were served,

  entry S COMMAND

and its answer as in `rehearse run`, and at last `final` and the state as `show`
tells it. The log is one that a single operator could have had who makes these
commands in this order: the program compares what each session was told with
it, and ends with status 6 where they differ.

All lines are read first. A line that is no command, or the 65,536th command,
is told alone: `bad line K`. K counts lines from 1 behind `===`, with blank
lines and comments. docs/SCRIPTS.md explains each line.

Examples:

  ./rehearse sessions < examples/two-operators.txt
  ./rehearse sessions < examples/one-operator.txt";

pub static SWEEP_ABOUT: &str =
    "Reads a cluster file, a base and plans, and says what comes of each";

pub static SWEEP_AFTER_HELP: &str = "\
The input is that of `rehearse run` on standard input. Behind its script, which
is the base, stand plans: a line `plan NAME`, and then the events of the plan:

./rehearse sweep << 'EOF'
{node, a@x, [{kernel, [{distributed, [{web, 5000, [a@x, b@x]}]}]},
  {rehearse, [{boot, [{web, permanent}]}]}]}.
{node, b@x, [{kernel, [{distributed, [{web, 5000, [a@x, b@x]}]}]},
  {rehearse, [{boot, [{web, permanent}]}]}]}.
{application, web, []}.
===
boot a@x
boot b@x
plan a-is-lost
crash a@x
tick 5000
plan both-are-lost
crash a@x
crash b@x
EOF

The base is answered as in `rehearse run`. Each plan begins from the state that
is reached then, whatever the other plans do, and ends behind its last event or
at the first that is refused. Its lines are events, the commands from `boot` to
`stop_all` of `rehearse run --help`, and blank lines and comments. NAME is one
word, and several plans may have the same. For each plan is told

  plan NAME accepted K failovers K takeovers K
  refused J ..               if event J of the plan was refused: why, as in
                             `rehearse run`; J counts events from 1
  app A ..                   where each distributed application stands then, as
                             `show` tells it

`failovers` counts the starts of applications that were lost with another node,
`takeovers` those in place of one that ran at another node. The plans are shared
among as many threads as `--workers` says; what is told is the same for any.

All lines are read first. A line that is no command, or a line of a plan that is
no event, is told alone: `bad line K`. K counts lines from 1 behind `===`, with
blank lines and comments. The last line is `sweep refused V2 base_not_at_end`
where the base ends with steps taken back, and `sweep refused V3 trail_room`
where the base and a plan have more than 65535 events together.

With `--json` each answer and each plan is a line of JSON, for programs.

With `--rules otp25` plans are tried on live nodes of OTP 25, and the base is
answered as in `rehearse run --rules otp25`, in the order of messages that
`--pick` says. There a call can be answered late, or never, so a plan goes on
whatever its events are answered, up to one that no node can be given:

  plan NAME accepted K
  answer J ..                event J was made, and not answered by `ok`: the
                             first line of its answer, as in `rehearse run`
  refused J ..               event J can't be given to a node: why
  endless J                  at event J nodes would send messages for ever
  app A running N ..         where each distributed application runs then, at
                             several nodes if it does; else `app A nowhere`
  blocked N ..               for what a process of node N waits then that
                             doesn't come by itself
  open COMMAND               the call of this command hasn't returned

docs/SCRIPTS.md explains each line, and the fields of JSON.

Examples:

  ./rehearse sweep --workers 4 < examples/five-nodes-sweep.txt
  ./rehearse sweep --rules otp25 < examples/five-nodes-sweep.txt";
