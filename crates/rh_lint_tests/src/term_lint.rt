//! Cluster files with mistyped names, and what is told of them.

use rh_base::{OutOfMemory, Term, Terms};
use rh_term_lint::{ReadName, TermFinding, term_findings, term_name};
use rh_terms::read_terms;
use std::alloc::Global;
use std::process::Abort;

// The name of the term at a place.
fn name_at(terms: &Terms, place: usize) -> &str {
    match terms.as_slice().get(place) {
        Some(term) => term_name(term).unwrap_or("?"),
        None => "?",
    }
}

// A finding as a line: its kind, whose it is, what is written, and what was meant.
fn push_line(out: &mut String, terms: &Terms, finding: &TermFinding) -> Result<(), OutOfMemory> {
    match finding {
        TermFinding::NoProfile => write!(out, "no profile\n")?,
        TermFinding::NearSection {
            term,
            written,
            meant,
        } => push_near(
            out,
            "section",
            name_at(terms, *term),
            written.as_str(),
            *meant,
        )?,
        TermFinding::NearParameter {
            term,
            written,
            meant,
        } => push_near(
            out,
            "parameter",
            name_at(terms, *term),
            written.as_str(),
            *meant,
        )?,
        TermFinding::UndefinedWritten { term } => {
            let owner = name_at(terms, *term);
            write!(out, "undefined {owner}\n")?;
        }
        TermFinding::NearKey {
            term,
            written,
            meant,
        } => push_near(out, "key", name_at(terms, *term), written.as_str(), *meant)?,
    }
    Ok(())
}

// The line of a near name.
fn push_near(
    out: &mut String,
    kind: &str,
    owner: &str,
    written: &str,
    meant: ReadName,
) -> Result<(), OutOfMemory> {
    let word = meant.word();
    write!(out, "{kind} {owner} {written} {word}\n")?;
    Ok(())
}

// What is told of a text is this.
fn expect_findings(rt: &impl Abort, alloc: Global, text: &str, want: &str) {
    let terms = read_terms(alloc, text.as_bytes()).ok().expect(rt, "terms");
    let found = term_findings(alloc, &terms).ok().expect(rt, "memory");
    let mut out = String::new(alloc);
    for finding in found.as_slice() {
        push_line(&mut out, &terms, finding)
            .ok()
            .expect(rt, "memory");
    }
    assert_eq!(rt; out.as_str(), want);
}

#[test]
fn parameters(rt: HostRuntime) {
    let alloc = rt.alloc();
    expect_findings(
        &rt,
        alloc,
        "{profile, 2}. {node, 'n1@lab', [{kernel, [{sync_node_timeout, 5000}]}]}.",
        "parameter n1@lab sync_node_timeout sync_nodes_timeout\n",
    );
    expect_findings(
        &rt,
        alloc,
        "{profile, 2}. {node, 'n1@lab', [{kernel, [{distribted, [{web, ['n1@lab']}]}]}]}. {application, web, []}.",
        "parameter n1@lab distribted distributed\n",
    );
    expect_findings(
        &rt,
        alloc,
        "{profile, 2}. {node, a, [{kernel, [{sync_nodes_optinal, []}, {sync_nodes_mandatroy, []}, {permision, []}]}]}.",
        "parameter a sync_nodes_optinal sync_nodes_optional\nparameter a sync_nodes_mandatroy sync_nodes_mandatory\nparameter a permision permissions\n",
    );
    expect_findings(
        &rt,
        alloc,
        "{profile, 2}. {node, a, [{kernel, [{net_ticktime, 60}, {prevent_overlapping_partitions, true}, {logger_level, info}]}]}.",
        "",
    );
}

#[test]
fn sections(rt: HostRuntime) {
    let alloc = rt.alloc();
    expect_findings(
        &rt,
        alloc,
        "{profile, 2}. {node, a, []}. {node, b, [{kernal, [{distributed, []}]}, {sasl, []}]}.",
        "section b kernal kernel\n",
    );
    expect_findings(
        &rt,
        alloc,
        "{profile, 2}. {node, a, [{rehearsal, [{boot, []}]}]}. {node, b, [{'Kernel', []}]}.",
        "section a rehearsal rehearse\nsection b Kernel kernel\n",
    );
}

#[test]
fn keys(rt: HostRuntime) {
    let alloc = rt.alloc();
    expect_findings(
        &rt,
        alloc,
        "{profile, 2}. {node, a, []}. {application, web, [{vsn, \"1\"}, {aplications, [kernel]}, {mod, {web, []}}]}.",
        "key web aplications applications\n",
    );
    expect_findings(
        &rt,
        alloc,
        "{profile, 2}. {node, a, []}. {application, web, [{start_phase, []}, {modules, []}, {id, \"\"}, {mood, {web, []}}]}.",
        "key web start_phase start_phases\nkey web mood mod\n",
    );
}

#[test]
fn what_a_live_node_takes_otherwise(rt: HostRuntime) {
    let alloc = rt.alloc();
    expect_findings(
        &rt,
        alloc,
        "{node, a, [{kernel, [{sync_nodes_optional, [b]}, {sync_nodes_timeout, undefined}]}]}. {node, b, []}.",
        "no profile\nundefined a\n",
    );
    expect_findings(
        &rt,
        alloc,
        "{profile, 1}. {node, a, [{kernel, [{sync_nodes_timeout, infinity}]}, {sasl, [{sync_nodes_timeout, undefined}]}]}.",
        "",
    );
}

// Terms that describe no cluster are passed over, and the others are still told of.
#[test]
fn files_that_are_refused(rt: HostRuntime) {
    let alloc = rt.alloc();
    expect_findings(&rt, alloc, "", "no profile\n");
    expect_findings(
        &rt,
        alloc,
        "{profile, 7}. node. {node, a}. {node, a, kernal}. {nodes, a, [{kernal, []}]}. {node, a, [kernal, {kernal}, {\"kernal\", []}]}.",
        "",
    );
    expect_findings(
        &rt,
        alloc,
        "{profile, 2}. {node, a, [{kernal, none}, {kernel, [7, {distribted}, {distribted, oops}]}]}. {node, a, [{kernels, []}]}.",
        "section a kernal kernel\nparameter a distribted distributed\nsection a kernels kernel\n",
    );
}

#[test]
fn terms_have_names(rt: HostRuntime) {
    let alloc = rt.alloc();
    let text = "{node, n, []}. {application, w, []}. {node, \"n\", []}. node.";
    let terms = read_terms(alloc, text.as_bytes()).ok().expect(&rt, "terms");
    let mut out = String::new(alloc);
    for term in terms.as_slice() {
        push_name(&mut out, term).ok().expect(&rt, "memory");
    }
    assert_eq!(rt; out.as_str(), "n w ? ? ");
}

// The name of a term, or a question mark.
fn push_name(out: &mut String, term: &Term) -> Result<(), OutOfMemory> {
    let name = term_name(term).unwrap_or("?");
    write!(out, "{name} ")?;
    Ok(())
}
