//! Terms: what is read of each construct and of lists that come again, copies, terms that are shared, and terms made by hand.

use crate::shown::{
    are_shown, copy_of, in_shared, kept_behind, kept_of, reads, reads_kept, share_of, terms_of,
};
use rh_base::{Str, Term, Terms};
use rh_terms::TermFault;
use std::alloc::Global;
use std::process::Abort;

#[test]
fn every_construct(rt: HostRuntime) {
    let terms = terms_of(
        &rt,
        rt.alloc(),
        "% all\n{app_1@x, 'q \\\\\\'\\\"\\n\\t\\r\\s\u{e9}\n', -07, []}.\n\"\". [ {} , [\"t\"],and ] .",
    );
    let want = "{app_1@x,q \\'\"\n\t\r \u{e9}\n,-7,[],},\"\",[{},[\"t\",],and,],";
    are_shown(&rt, rt.alloc(), &terms, want);
}

// Is a copy shown so, and the same?
fn is_copied(rt: &impl Abort, alloc: Global, terms: &Terms, want: &str) {
    let copy = copy_of(rt, alloc, terms);
    are_shown(rt, alloc, &copy, want);
    assert!(rt; copy.same(terms));
}

#[test]
fn a_copy_is_equal(rt: HostRuntime) {
    let terms = terms_of(&rt, rt.alloc(), "[primary]. {'a b', \"c\", [-1]}.");
    is_copied(&rt, rt.alloc(), &terms, "[primary,],{a b,\"c\",[-1,],},");
}

// Are the terms the same, seen from both sides?
fn are_terms_same(rt: &impl Abort, one: &Terms, other: &Terms) -> bool {
    let answer = one.same(other);
    assert!(rt; other.same(one) == answer);
    answer
}

// Is the text's list of terms the same as this one?
fn is_same(rt: &impl Abort, alloc: Global, one: &Terms, text: &str) -> bool {
    are_terms_same(rt, one, &terms_of(rt, alloc, text))
}

#[test]
fn equal_terms_are_the_same(rt: HostRuntime) {
    let one = terms_of(&rt, rt.alloc(), "{'a', [1, \"t\"]}.");
    assert!(rt; is_same(&rt, rt.alloc(), &one, "% again\n{a,[1,\"t\"]}."));
    for text in [
        "[a, [1, \"t\"]].",
        "{a, [1, t]}.",
        "{a, [1, \"t\", \"t\"]}.",
        "{a, [1]}.",
        "{a, [2, \"t\"]}.",
        "{b, [1, \"t\"]}.",
        "{a, [1, \"t\"]}. a.",
        "",
    ] {
        assert!(rt; !is_same(&rt, rt.alloc(), &one, text), "{text}");
    }
}

// The text's terms, which were shared with a list that is gone.
fn shared_of(rt: &impl Abort, alloc: Global, text: &str) -> Terms {
    let first = in_shared(rt, alloc, terms_of(rt, alloc, text));
    share_of(rt, alloc, &first)
}

#[test]
fn shared_terms_stay_where_others_go(rt: HostRuntime) {
    for (text, want) in [
        ("{a, [1, \"t\"]}. [].", "{a,[1,\"t\",],},[],"),
        ("[a]. [a]. [a, [a]].", "[a,],[a,],[a,[a,],],"),
        ("", ""),
    ] {
        let shared = shared_of(&rt, rt.alloc(), text);
        are_shown(&rt, rt.alloc(), &shared, want);
    }
}

// A copy, which is the same.
fn same_copy_of(rt: &impl Abort, alloc: Global, terms: &Terms) -> Terms {
    let copy = copy_of(rt, alloc, terms);
    assert!(rt; are_terms_same(rt, &copy, terms));
    copy
}

// A copy of the text's terms, which were shared and are gone.
fn copy_of_shared(rt: &impl Abort, alloc: Global, text: &str) -> Terms {
    let shared = shared_of(rt, alloc, text);
    same_copy_of(rt, alloc, &shared)
}

#[test]
fn a_copy_of_shared_terms_is_equal(rt: HostRuntime) {
    let copy = copy_of_shared(&rt, rt.alloc(), "{a, [1, \"t\"]}. [].");
    are_shown(&rt, rt.alloc(), &copy, "{a,[1,\"t\",],},[],");
}

// Are shared terms shown so where they are shared again? They are gone then.
fn are_shown_again(rt: &impl Abort, alloc: Global, shared: Terms, want: &str) {
    let again = in_shared(rt, alloc, shared);
    are_shown(rt, alloc, &again, want);
}

// The text's terms, which were shared with others that were shown so, and are gone.
fn shared_and_shown(rt: &impl Abort, alloc: Global, text: &str, want: &str) -> Terms {
    let first = shared_of(rt, alloc, text);
    let second = share_of(rt, alloc, &first);
    are_shown_again(rt, alloc, first, want);
    second
}

#[test]
fn terms_are_shared_twice(rt: HostRuntime) {
    let want = "{a,[1,\"t\",],},[],";
    let second = shared_and_shown(&rt, rt.alloc(), "{a, [1, \"t\"]}. [].", want);
    are_shown(&rt, rt.alloc(), &second, want);
}

// Terms that these are asked to share, which are the same.
fn same_share_of(rt: &impl Abort, alloc: Global, terms: &Terms) -> Terms {
    let more = share_of(rt, alloc, terms);
    assert!(rt; are_terms_same(rt, &more, terms));
    more
}

// What the text's terms share, which aren't shared and are gone.
fn share_of_own(rt: &impl Abort, alloc: Global, text: &str) -> Terms {
    let own = terms_of(rt, alloc, text);
    same_share_of(rt, alloc, &own)
}

#[test]
fn terms_that_are_not_shared_are_copied(rt: HostRuntime) {
    let more = share_of_own(&rt, rt.alloc(), "{a, [1, \"t\"]}. [].");
    are_shown(&rt, rt.alloc(), &more, "{a,[1,\"t\",],},[],");
}

// Is the text's list of terms, which is shared, the same as this one?
fn is_same_shared(rt: &impl Abort, alloc: Global, shared: &Terms, text: &str) -> bool {
    are_terms_same(rt, shared, &shared_of(rt, alloc, text))
}

// Is the text's list of terms the same as this one, whether they are shared or not?
fn is_same_shared_too(rt: &impl Abort, alloc: Global, shared: &Terms, text: &str) -> bool {
    let answer = is_same(rt, alloc, shared, text);
    assert!(rt; is_same_shared(rt, alloc, shared, text) == answer);
    answer
}

#[test]
fn shared_terms_are_compared_as_others(rt: HostRuntime) {
    let shared = shared_of(&rt, rt.alloc(), "{a, [1, \"t\"]}. b.");
    assert!(rt; is_same_shared_too(&rt, rt.alloc(), &shared, "{a,[1,\"t\"]}. b."));
    for text in [
        "{a, [1, \"t\"]}. c.",
        "{a, [1, \"t\"]}.",
        "{a, [1, \"t\"]}. b. b.",
        "{a, [2, \"t\"]}. b.",
        "b. {a, [1, \"t\"]}.",
        "",
    ] {
        assert!(rt;
            !is_same_shared_too(&rt, rt.alloc(), &shared, text),
            "{text}"
        );
    }
}

// A term of this name, made by hand.
fn term_named(rt: &impl Abort, alloc: Global, name: &str) -> Term {
    let text = Str::of(String::from_str(alloc, name).ok().expect(rt, "memory"));
    let copy = text.copy(alloc).ok().expect(rt, "memory");
    assert!(rt; text.same(&copy));
    Term::Atom(copy)
}

fn is_shown(rt: &impl Abort, alloc: Global, terms: &Terms) {
    let first = terms.as_slice().first().expect(rt, "a term");
    let copy = first.copy(alloc).ok().expect(rt, "memory");
    assert!(rt; copy.same(first));
    are_shown(rt, alloc, terms, "svc,");
}

#[test]
fn made_by_hand(rt: HostRuntime) {
    let mut items = Vec::new(rt.alloc());
    assert!(rt; items.push(term_named(&rt, rt.alloc(), "svc")).is_ok());
    let terms = Terms::of(items);
    is_shown(&rt, rt.alloc(), &terms);
}

// What is kept of the text is shown so.
fn is_kept(rt: &impl Abort, alloc: Global, text: &str, want: &str) {
    let terms = kept_of(rt, alloc, text);
    are_shown(rt, alloc, &terms, want);
}

#[test]
fn skipped_terms_are_not_kept(rt: HostRuntime) {
    let text =
        "{skip, [a, {b}], {c}, \"t\", 'q', -7}. {keep, [{skip, [1], x}, skip, [skip, 2]]}. {{skip, 3}, 4}.";
    let want = "{skip,[],{},{},{},{},},{keep,[{skip,[],{},},skip,[skip,2,],],},{{skip,{},},4,},";
    is_kept(&rt, rt.alloc(), text, want);
}

#[test]
fn skipped_terms_have_their_faults(rt: HostRuntime) {
    for (text, want) in [
        ("{skip,\n[a,\n b c]}.", TermFault::Syntax { line: 3 }),
        ("{skip, [a, {b, [\n", TermFault::Syntax { line: 2 }),
        ("{skip, 'a\n", TermFault::Syntax { line: 2 }),
        (
            "{skip, {a, \"b\"\n\n\"c\"}}.",
            TermFault::Unsupported { line: 3 },
        ),
        ("{skip, 'a\n\\q'}.", TermFault::Unsupported { line: 2 }),
        ("{skip, [a\n| b]}.", TermFault::Unsupported { line: 2 }),
        ("{skip, 1.5}.", TermFault::Unsupported { line: 1 }),
        ("{skip, -9223372036854775809}.", TermFault::IntRange),
    ] {
        assert!(rt; reads_kept(rt.alloc(), text).err() == Some(want), "{text}");
    }
}

#[test]
fn skipped_lists_that_come_again(rt: HostRuntime) {
    for (text, want) in [
        (
            "{skip, [a, {b}]}. {skip, [a, {b}], [a, {b}]}. {keep, [a, {b}]}. {skip, [a, {b}]}.",
            "{skip,[],},{skip,[],[],},{keep,[a,{b,},],},{skip,[],},",
        ),
        (
            "{skip, [a]}. {skip, [a, b]}. {skip, [a]}. {skip, [a, b]}. {skip, {[a, b]}}.",
            "{skip,[],},{skip,[],},{skip,[],},{skip,[],},{skip,{},},",
        ),
        (
            "{skip, [a, b], c}. {{skip, [a, b], c}}. {skip, [a, b], [a, b], c}.",
            "{skip,[],{},},{{skip,[],{},},},{skip,[],[],{},},",
        ),
        (
            "{skip, [a,b]}. {skip, [b,a]}. {skip, [a],b}. {skip, [a,b]}. {skip, \"a,b\"}. {skip, [a,b]}.",
            "{skip,[],},{skip,[],},{skip,[],{},},{skip,[],},{skip,{},},{skip,[],},",
        ),
    ] {
        is_kept(&rt, rt.alloc(), text, want);
    }
}

#[test]
fn faults_behind_skipped_lists_that_come_again(rt: HostRuntime) {
    for (text, want) in [
        (
            "{skip, [a]}.\n{skip, [a]}.\n{skip, [a] b}.",
            TermFault::Syntax { line: 3 },
        ),
        (
            "{skip, [a]}.\n{skip, [a],\n[a, 1.5]}.",
            TermFault::Unsupported { line: 3 },
        ),
        (
            "{skip, [a, b]}.\n{skip, [a, b}.",
            TermFault::Syntax { line: 2 },
        ),
        (
            "{skip, [a,b]}.\n{skip, [a b]}.",
            TermFault::Syntax { line: 2 },
        ),
        (
            "{skip, [a,b]}.\n{skip, [a,\n]}.",
            TermFault::Syntax { line: 3 },
        ),
        (
            "{skip, [1,5]}.\n{skip, [1.5]}.",
            TermFault::Unsupported { line: 2 },
        ),
        (
            "{skip, [a,b]}.\n{skip, [a|b]}.",
            TermFault::Unsupported { line: 2 },
        ),
    ] {
        assert!(rt; reads_kept(rt.alloc(), text).err() == Some(want), "{text}");
    }
}

// What is read of the text is shown so.
fn is_read(rt: &impl Abort, alloc: Global, text: &str, want: &str) {
    let terms = terms_of(rt, alloc, text);
    are_shown(rt, alloc, &terms, want);
}

#[test]
fn lists_that_come_again(rt: HostRuntime) {
    for (text, want) in [
        (
            "{a, [x, {y, [1]}]}. {b, [x, {y, [1]}]}. {c, [x, {y, [1]}]}.",
            "{a,[x,{y,[1,],},],},{b,[x,{y,[1,],},],},{c,[x,{y,[1,],},],},",
        ),
        ("{[a],[a],[a],b,[a]}.", "{[a,],[a,],[a,],b,[a,],},"),
        ("[a]. [a]\n. [a]%]\n. [a] .", "[a,],[a,],[a,],[a,],"),
        (
            "[\"]\", 'b]', -1]. [\"]\", 'b]', -1]. [\"]\", 'b]', -1]. [\"]\", 'b]', -1].",
            "[\"]\",b],-1,],[\"]\",b],-1,],[\"]\",b],-1,],[\"]\",b],-1,],",
        ),
    ] {
        is_read(&rt, rt.alloc(), text, want);
    }
}

#[test]
fn lists_at_another_depth(rt: HostRuntime) {
    is_read(
        &rt,
        rt.alloc(),
        "[p, q]. [p, q]. [p, q]. {[p, q]}. {{[p, q], [p, q]}}. [[p, q]]. [p, q].",
        "[p,q,],[p,q,],[p,q,],{[p,q,],},{{[p,q,],[p,q,],},},[[p,q,],],[p,q,],",
    );
}

#[test]
fn lists_that_begin_alike(rt: HostRuntime) {
    for (text, want) in [
        (
            "[a, b]. [a, b]. [a, b, c]. [a, b]. [a, b, c]. [a, b, c]. [a, b].",
            "[a,b,],[a,b,],[a,b,c,],[a,b,],[a,b,c,],[a,b,c,],[a,b,],",
        ),
        (
            "[a]. [a]. [a, b]. [a]. [ab]. [a].",
            "[a,],[a,],[a,b,],[a,],[ab,],[a,],",
        ),
        (
            "[a,b]. [a,b]. [a,[b]]. [a,'b']. [a, b].",
            "[a,b,],[a,b,],[a,[b,],],[a,b,],[a,b,],",
        ),
    ] {
        is_read(&rt, rt.alloc(), text, want);
    }
}

#[test]
fn faults_behind_lists_that_come_again(rt: HostRuntime) {
    for (text, want) in [
        ("[a].\n[a].\n[a] b.", TermFault::Syntax { line: 3 }),
        ("[a].\n[a].\n\n[a]", TermFault::Syntax { line: 4 }),
        ("[a].\n[a].\n[a].x", TermFault::Syntax { line: 3 }),
        ("[a].\n[a].\n[a, ].", TermFault::Syntax { line: 3 }),
        ("[a,b].\n[a,b].\n[a,b}.", TermFault::Syntax { line: 3 }),
        ("[a].\n[a].\n{[a]\n1.5}.", TermFault::Syntax { line: 4 }),
        (
            "[a].\n[a].\n{[a],\n1.5}.",
            TermFault::Unsupported { line: 4 },
        ),
        ("{[a],\n[a],\n[a]\n| b}.", TermFault::Syntax { line: 4 }),
    ] {
        assert!(rt; reads(rt.alloc(), text).err() == Some(want), "{text}");
    }
}

// Writes a term inside so many tuples, and a dot.
fn push_inside(rt: &impl Abort, alloc: Global, out: &mut String, tuples: usize, term: &str) {
    out.push_str(&"{".repeat(alloc, tuples).ok().expect(rt, "memory"))
        .ok()
        .expect(rt, "memory");
    out.push_str(term).ok().expect(rt, "memory");
    out.push_str(&"}".repeat(alloc, tuples).ok().expect(rt, "memory"))
        .ok()
        .expect(rt, "memory");
    out.push_str(". ").ok().expect(rt, "memory");
}

// A term twice inside `before` tuples, and then inside so many.
fn again_inside(
    rt: &impl Abort,
    alloc: Global,
    term: &str,
    before: usize,
    tuples: usize,
) -> String {
    let mut text = String::new(alloc);
    push_inside(rt, alloc, &mut text, before, term);
    push_inside(rt, alloc, &mut text, before, term);
    push_inside(rt, alloc, &mut text, tuples, term);
    text
}

// Is a list in a list read inside so many tuples, where it came twice before inside `before` tuples?
fn is_read_inside(
    rt: &impl Abort,
    alloc: Global,
    before: usize,
    tuples: usize,
) -> Result<(), TermFault> {
    let text = again_inside(rt, alloc, "[[a]]", before, tuples);
    reads(alloc, text.as_str())
}

// Two lists nest, so that 62 tuples may stand round them.
#[test]
fn a_list_that_comes_again_too_deep(rt: HostRuntime) {
    for (before, tuples) in [(0, 62), (62, 0), (62, 62)] {
        assert!(rt; is_read_inside(&rt, rt.alloc(), before, tuples).is_ok());
    }
    assert!(rt; is_read_inside(&rt, rt.alloc(), 0, 63).err() == Some(TermFault::TooDeep));
    assert!(rt; is_read_inside(&rt, rt.alloc(), 62, 63).err() == Some(TermFault::TooDeep));
}

// The same of a list that is skipped.
fn is_skipped_inside(
    rt: &impl Abort,
    alloc: Global,
    before: usize,
    tuples: usize,
) -> Result<(), TermFault> {
    let text = again_inside(rt, alloc, "{skip, [[a]]}", before, tuples);
    reads_kept(alloc, text.as_str())
}

// A tuple more is that with `skip`.
#[test]
fn a_skipped_list_that_comes_again_too_deep(rt: HostRuntime) {
    for (before, tuples) in [(0, 61), (61, 0), (61, 61)] {
        assert!(rt; is_skipped_inside(&rt, rt.alloc(), before, tuples).is_ok());
    }
    assert!(rt; is_skipped_inside(&rt, rt.alloc(), 0, 62).err() == Some(TermFault::TooDeep));
    assert!(rt; is_skipped_inside(&rt, rt.alloc(), 61, 62).err() == Some(TermFault::TooDeep));
}

#[test]
fn only_lists_that_are_kept_whole_are_shared(rt: HostRuntime) {
    let text =
        "[a, {b, 1}]. {keep, [a, {b, 1}]}. {other, [a, {b, 1}]}. {keep, [a, {b, 1}], x}. [a, {b, 1}]. {keep, [a, {b, 1}]}.";
    let terms = kept_behind(&rt, rt.alloc(), text);
    let want =
        "[a,{b,{},},],{keep,[a,{b,1,},],},{other,[],},{keep,[a,{b,1,},],x,},[a,{b,{},},],{keep,[a,{b,1,},],},";
    are_shown(&rt, rt.alloc(), &terms, want);
}
