//! The clusters of the tests: texts of cluster files, small enough to be read beside a test. Nothing but tests stands on them.
#![tactic(auto)]

/// Three nodes that wait for one another, and an application of theirs (Distributed Applications).
pub static CAVE: &str = "\
{node, cp1@cave, [{kernel, [
  {distributed, [{myapp, 5000, [cp1@cave, {cp2@cave, cp3@cave}]}]},
  {sync_nodes_mandatory, [cp2@cave, cp3@cave]},
  {sync_nodes_timeout, 5000}]},
  {rehearse, [{boot, [{myapp, permanent}]}]}]}.
{application, myapp, [{applications, [kernel, stdlib]},
  {mod, {myapp_app, []}}]}.
{node, cp2@cave, [{kernel, [
  {distributed, [{myapp, 5000, [cp1@cave, {cp2@cave, cp3@cave}]}]},
  {sync_nodes_mandatory, [cp1@cave, cp3@cave]},
  {sync_nodes_timeout, 5000}]},
  {rehearse, [{boot, [{myapp, permanent}]}]}]}.
{node, cp3@cave, [{kernel, [
  {distributed, [{myapp, 5000, [cp1@cave, {cp2@cave, cp3@cave}]}]},
  {sync_nodes_mandatory, [cp1@cave, cp2@cave]},
  {sync_nodes_timeout, 5000}]},
  {rehearse, [{boot, [{myapp, permanent}]}]}]}.
";

/// One node that boots three applications.
pub static ONE_NODE: &str = "\
{node, one@lab, [{rehearse,
  [{boot, [{a, temporary}, {b, temporary}, {c, temporary}]}]}]}.
{application, a, []}. {application, b, []}. {application, c, []}.
";

/// Two nodes, and an application that needs two others.
pub static TWO_NODES: &str = "\
{node, v@lab, []}.
{node, w@lab, [{rehearse, [{boot, [{x, permanent}, {d1, permanent}]}]}]}.
{application, x, [{applications, [kernel, d1, d2]}]}.
{application, d1, []}. {application, d2, []}.
";

/// A service that may run at three nodes, a job that may run at one of them and needs a local application.
pub static THREE_NODES: &str = "\
{node, n1, [{kernel, [{distributed, [{svc, 1000, [n1, {n2, n3}]}, {job, [n2]}]}]}]}.
{node, n2, [{kernel, [{distributed, [{svc, 1000, [n1, {n2, n3}]}, {job, [n2]}]}]}]}.
{node, n3, [{kernel, [{distributed, [{svc, 1000, [n1, {n2, n3}]}, {job, [n2]}]}]}]}.
{application, svc, [{start_phases, [{go, []}]}]}.
{application, job, [{applications, [side]}]}.
{application, side, []}.
";
