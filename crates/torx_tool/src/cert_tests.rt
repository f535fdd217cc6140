//! Certificates: what `check --cert` prints, and what `verify` says of certificates that are right, wrong or cut.
use crate::tests::answers;
use std::test::Fail;

/// The systems, and certificates of them.
const FILES: &str = r#"
S.aut | des (0,3,3)\n(0,"?coin",1)\n(1,"!tea",2)\n(1,"!coffee",2)\n
I.aut | des (0,4,3)\n(0,"?coin",1)\n(1,"!tea",2)\n(1,"?coin",1)\n(2,"?coin",2)\n
M.aut | des (0,2,3)\n(0,"?coin",1)\n(1,"!milk",2)\n
relation | torx certificate 1\nmode ioco\nkind relation\nleft 0\nleft 1\nleft 2\nright 0\nright 1\nright 2\npair 1 1\npair 2 2\npair 3 3\nend 3\n
violation | torx certificate 1\nmode ioco\nkind trace\nafter ?coin\nshows !milk\nend 1\n
c1 | torx certificate 1\nmode ioco\nkind relation\nleft 0\nleft 1\nleft 2\nright 0\nright 1\nright 2\npair 1 1\npair 2 2\nend 2\n
c2 | torx certificate 1\nmode iocoo\nkind relation\n
c3 | torx certificate 1\nmode ioco\nkind relation\nleft 0\nleft 1\nleft 2\nright 0\nright 1\nright 2\npair 1 1\npair 2 2\npair 3 3\nend 3
c4 | torx certificate 1\nmode ioco\nkind relation\nleft 9\nleft 1\nleft 2\nright 0\nright 1\nright 2\npair 1 1\npair 2 2\npair 3 3\nend 3\n
c5 | 
c6 | torx certificate 1\nmode ioco\nkind relation\nend 0\n
c7 | torx certificate 1\nmode ioco\nkind relation\nleft 2\nleft 1\nleft 0\nright 2\nright 1\nright 0\npair 2 2\npair 3 3\npair 3 3\npair 1 1\nend 4\n
c8 | torx certificate 1\nmode uioco\nkind relation\nleft 0\nleft 1\nleft 2\nright 0\nright 1\nright 2\npair 1 1\npair 2 2\npair 3 3\nend 3\n
c9 | torx certificate 1\nmode ioco\nkind relation\nleft 0\nleft 1\nright 0\nright 2\npair 1 1\npair 2 2\nend 2\n
c10 | torx certificate 1\nmode ioco\nkind relation\nleft 0\nleft 1\nright 0\nright 2\npair 2 2\npair 1 1\nend 2\n
c11 | torx certificate 1\nmode ioco\nkind trace\nafter ?coin\nshows !tea\nend 1\n
c12 | torx certificate 1\nmode ioco\nkind trace\nafter ?tee\nshows !milk\nend 1\n
c13 | torx certificate 1\nmode ioco\nkind trace\nafter ?coin\nafter ?coin\nshows delta\nend 2\n
c14 | torx certificate 1\nmode ioco\nkind trace\nshows delta\nend 0\n
c15 | torx certificate 1\nmode ioco\nkind trace\nafter ?coin\nshows ?coin\nend 1\n
"#;

/// Certificates that are printed.
const PRINTED: &str = r#"
check --cert S.aut I.aut | torx certificate 1\nmode ioco\nkind relation\nleft 0\nleft 1\nleft 2\nright 0\nright 1\nright 2\npair 1 1\npair 2 2\npair 3 3\nend 3\n | 0
check --cert S.aut M.aut | torx certificate 1\nmode ioco\nkind trace\nafter ?coin\nshows !milk\nend 1\n | 1
check --cert --pairs 1 S.aut I.aut | undecided pairs=1 depth=1\n | 2
check --cert --members 1 S.aut I.aut | undecided imp-members=2 depth=1\n | 2
check --cert --enabled I.aut S.aut | not-enabled S.aut state=1 input=?coin\n | 4
"#;

#[test]
fn prints_certificates(rt: HostRuntime) -> Result<(), Fail> {
    answers(&rt, rt.alloc(), FILES, PRINTED)
}

/// Certificates that are relations.
const RELATIONS: &str = r#"
verify S.aut I.aut relation | accepted\n | 0
verify S.aut I.aut c1 | rejected not-closed pair=2 item=!tea\n | 1
verify S.aut I.aut c2 | bad c2 line 2\n | 4
verify S.aut I.aut c3 | bad c3 cut 13\n | 4
verify S.aut I.aut c4 | bad c4 state-range 4\n | 4
verify S.aut I.aut c5 | bad c5 cut 1\n | 4
verify S.aut I.aut c6 | rejected start\n | 1
# the same pairs twice, and lists in another order
verify S.aut I.aut c7 | accepted\n | 0
# a certificate of the other conformance
verify S.aut I.aut c8 | accepted\n | 0
verify S.aut I.aut c9 | rejected not-closed pair=1 item=?coin\n | 1
verify S.aut I.aut c10 | rejected outputs pair=1\n | 1
"#;

#[test]
fn verifies_relations(rt: HostRuntime) -> Result<(), Fail> {
    answers(&rt, rt.alloc(), FILES, RELATIONS)
}

/// Certificates that are traces.
const TRACES: &str = r#"
verify S.aut M.aut violation | accepted\n | 0
verify S.aut M.aut c11 | rejected not-shown\n | 1
verify S.aut M.aut c12 | bad c12 unknown-label 4\n | 4
verify S.aut M.aut c13 | rejected not-allowed place=2\n | 1
verify S.aut M.aut c14 | rejected allowed\n | 1
verify S.aut M.aut c15 | bad c15 unknown-label 5\n | 4
"#;

#[test]
fn verifies_traces(rt: HostRuntime) -> Result<(), Fail> {
    answers(&rt, rt.alloc(), FILES, TRACES)
}

/// Words of `verify`.
const WORDS: &str = r#"
verify --divergence quiet S.aut I.aut relation | accepted\n | 0
verify S.aut M.aut relation | rejected outputs pair=2\n | 1
verify S.aut I.aut | usage words\n | 3
verify --uioco S.aut I.aut relation | usage words\n | 3
verify S.aut I.aut d | fault d\n | 5
"#;

#[test]
fn verifies_by_the_words(rt: HostRuntime) -> Result<(), Fail> {
    answers(&rt, rt.alloc(), FILES, WORDS)
}
