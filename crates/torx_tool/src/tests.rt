//! Worked cases: words and files in memory, and what is printed for them.
use crate::run::run;
use crate::status::Status;
use crate::table::{bytes_of, cell, is_case, number, words_of};
use edge_io::{Contents, Dialer, Files, MemFiles, MemSink, NamedText, Numbers, Sink, SureDialer};
use lts_base::{Listed, Memory};
use std::alloc::Global;
use std::process::Abort;
use std::test::Fail;

/// The files that the cases speak of: name and content.
pub const FILES: &str = r#"
S.aut | des (0,3,3)\n(0,"?coin",1)\n(1,"!tea",2)\n(1,"!coffee",2)\n
I.aut | des (0,4,3)\n(0,"?coin",1)\n(1,"!tea",2)\n(1,"?coin",1)\n(2,"?coin",2)\n
M.aut | des (0,2,3)\n(0,"?coin",1)\n(1,"!milk",2)\n
Q.aut | des (0,1,2)\n(0,"?coin",1)\n
E.aut | des (0,0,1)\n
X.aut | des (0,1,2)\n(0,"!x",1)\n
U.aut | des (0,4,5)\n(0,"?a",1)\n(0,"?a",2)\n(1,"?b",3)\n(3,"!x",4)\n
V.aut | des (0,3,4)\n(0,"?a",1)\n(1,"?b",2)\n(2,"!y",3)\n
R.aut | des (0,2,2)\n(0,"?a",1)\n(1,"!x",0)\n
W.aut | des (0,6,4)\n(0,"?a",1)\n(1,"!x",2)\n(2,"?a",3)\n(3,"!y",3)\n(1,"?a",1)\n(3,"?a",3)\n
C.aut | des (0,4,3)\n(0,"?coin",1)\n(1,"!tea",2)\n(1,"!coffee",2)\n
F.aut | des (0,1,1)\n(0,"!x",0)\n
K.aut | des (0, 1, 2)\r\n(0, ?put 1, x, 1)\r\n
O.aut | des (0,1,1)\n(0,"",0)\n
G.aut | des (0,1,2)\n(0,"coin",1)\n
T.aut | des (0,1,2)\n(0,"tau",1)\n
D.aut | des (0,1,1)\n(0,"tau",0)\n
L.aut | des (0,4,5)\n(0,"?coin",1)\n(2,i,3)\n(3,i,4)\n(4,tau,2)\n
B.aut | des (0,1,2)\n(0,"?a",2)\n
Y.aut | des (0,2,3)\n(0,"tau",1)\n(0,"!x",2)\n
H.aut | des (0,1,2)\n(0,"go!",1)\n
J.aut | des (0,1,2)\n(0,"delta",1)\n
coin | ?coin\n
coins | ?coin\n?coin\n
tea | ?tea\n
served | ?coin\r\n\n!tea\ndelta
a | ?a\n
ab | ?a\n?b\n
inputs | coin\n
faulty | tea\nco\01in\n
late | ?coin\n\ntau\n
# a cycle of two internal moves after one, an output on the cycle, one that can't be reached, and one after a quiet state
two.aut | des (0,3,3)\n(0,"tau",1)\n(1,"tau",2)\n(2,"tau",1)\n
noisy.aut | des (0,3,3)\n(0,"tau",1)\n(1,"tau",0)\n(1,"!x",2)\n
far.aut | des (0,3,4)\n(0,"!x",1)\n(2,"tau",3)\n(3,"tau",2)\n
after.aut | des (0,2,2)\n(0,"?a",1)\n(1,"tau",1)\n
spin.aut | des (0,2,2)\n(0,"tau",1)\n(1,"tau",1)\n
quiet | delta\n
Z.aut | 
"#;

/// The files of a table.
pub fn contents(alloc: Global, files: &str) -> Result<Contents, Memory> {
    let mut contents = Listed::new(alloc);
    for case in files.lines() {
        if is_case(case) {
            contents.push(NamedText {
                name: Listed::from_vec(bytes_of(alloc, cell(case, 0))?),
                content: Listed::from_vec(bytes_of(alloc, cell(case, 1))?),
            })?;
        }
    }
    Ok(contents)
}

/// Runs the words of each case, and compares what is printed and the exit status.
pub fn answers<R: Abort>(rt: &R, alloc: Global, files: &str, table: &str) -> Result<(), Fail> {
    for case in table.lines() {
        if is_case(case) {
            answer(rt, alloc, files, case)?;
        }
    }
    Ok(())
}

/// Runs the words. Nothing is promised, so that whoever calls it is proved without a look at what `run` promises.
pub fn ran<F: Files, S: Sink, D: Dialer>(
    alloc: Global,
    words: &[String],
    files: &mut F,
    out: &mut S,
    dialer: &mut D,
) -> Status {
    run(alloc, words, files, out, dialer)
}

fn answer<R: Abort>(rt: &R, alloc: Global, files: &str, case: &str) -> Result<(), Fail> {
    let mut files = MemFiles::new(contents(alloc, files)?, Numbers::new(alloc));
    let mut out = MemSink::new(alloc, 1000, 1000, Numbers::new(alloc))?;
    let words = words_of(alloc, cell(case, 0))?;
    let status = ran(
        alloc,
        &words,
        &mut files,
        &mut out,
        &mut SureDialer::new(alloc),
    );
    let want = bytes_of(alloc, cell(case, 1))?;
    assert_eq!(rt; out.written(), want.as_slice(), "{case}");
    assert_eq!(rt; u64::from(status.code()), number(cell(case, 2)), "{case}");
    Ok(())
}

/// Words, text and status: decisions.
pub const DECIDED: &str = r#"
check S.aut I.aut | conforms pairs=3\n | 0
check S.aut M.aut | violates\nafter ?coin\nshows !milk\n | 1
check S.aut Q.aut | violates\nafter ?coin\nshows delta\n | 1
check E.aut X.aut | violates\nshows !x\n | 1
check X.aut Y.aut | violates\nshows delta\n | 1
check U.aut V.aut | violates\nafter ?a\nafter ?b\nshows !y\n | 1
check --uioco U.aut V.aut | conforms pairs=2\n | 0
check F.aut X.aut | violates\nafter !x\nshows delta\n | 1
check X.aut K.aut | violates\nshows delta\n | 1
check K.aut K.aut | conforms pairs=2\n | 0
check R.aut W.aut | violates\nafter ?a\nafter !x\nafter ?a\nshows !y\n | 1
check --pairs 1 S.aut I.aut | undecided pairs=1 depth=1\n | 2
check --pairs 2 S.aut I.aut | undecided pairs=2 depth=2\n | 2
check --pairs 3 S.aut I.aut | conforms pairs=3\n | 0
check --pairs 1 S.aut M.aut | undecided pairs=1 depth=1\n | 2
check --pairs 2 S.aut M.aut | violates\nafter ?coin\nshows !milk\n | 1
check --members 1 S.aut I.aut | undecided imp-members=2 depth=1\n | 2
check --uioco --pairs 9 --members 1 S.aut I.aut | undecided imp-members=2 depth=1\n | 2
check --members 1 T.aut T.aut | undecided imp-members=2 depth=0\n | 2
check --members 1 T.aut E.aut | undecided spec-members=2 depth=0\n | 2
check --members 2 R.aut R.aut | conforms pairs=2\n | 0
check --members 2 R.aut W.aut | undecided imp-members=3 depth=2\n | 2
check --members 3 R.aut W.aut | undecided imp-members=4 depth=3\n | 2
check --members 4 R.aut W.aut | violates\nafter ?a\nafter !x\nafter ?a\nshows !y\n | 1
check --uioco --enabled S.aut I.aut | conforms pairs=3\n | 0
"#;

#[test]
fn decides(rt: HostRuntime) -> Result<(), Fail> {
    answers(&rt, rt.alloc(), FILES, DECIDED)
}

/// Words, text and status: files that are at fault.
const FAULTY: &str = r#"
check O.aut I.aut | bad O.aut line 2\n | 4
check Z.aut I.aut | bad Z.aut header\n | 4
check C.aut I.aut | bad C.aut count declared=4 found=3\n | 4
check S.aut C.aut | bad C.aut count declared=4 found=3\n | 4
check B.aut C.aut | bad B.aut state 2\n | 4
check G.aut I.aut | labels unsorted coin\n | 4
check --enabled S.aut M.aut | not-enabled M.aut state=1 input=?coin\n | 4
angelic S.aut | des (0,5,3)\n(0,"?coin",1)\n(1,"?coin",1)\n(1,"!coffee",2)\n(1,"!tea",2)\n(2,"?coin",2)\n | 0
angelic E.aut | des (0,0,1)\n | 0
angelic D.aut | divergent D.aut 0\n | 4
angelic N.aut | fault N.aut\n | 5
check D.aut D.aut | divergent D.aut 0\n | 4
check S.aut D.aut | divergent D.aut 0\n | 4
check L.aut D.aut | divergent L.aut 3 4 2\n | 4
check N.aut I.aut | fault N.aut\n | 5
check S.aut N.aut | fault N.aut\n | 5
"#;

#[test]
fn tells_what_is_wrong_with_files(rt: HostRuntime) -> Result<(), Fail> {
    answers(&rt, rt.alloc(), FILES, FAULTY)
}

/// Words, text and status: what a specification offers, and its completion.
pub const OFFERED: &str = r#"
outs S.aut | states 0\nshows delta\ninput ?coin\n | 0
outs S.aut coin | states 1\nshows !coffee\nshows !tea\n | 0
outs S.aut coins | absent 2\n | 1
outs S.aut served | states 2\nshows delta\n | 0
outs S.aut tea | bad tea unknown-label 1\n | 4
outs S.aut late | bad late unknown-label 3\n | 4
outs K.aut | states 0\nshows delta\ninput ?put 1, x\n | 0
outs T.aut | states 0 1\nshows delta\n | 0
outs U.aut a | states 1 2\nshows delta\ninput ?b\n | 0
outs --uioco U.aut a | states 1 2\nshows delta\n | 0
outs U.aut ab | states 3\nshows !x\n | 0
outs U.aut --uioco ab | absent 2\n | 1
outs B.aut | bad B.aut state 2\n | 4
outs C.aut | bad C.aut count declared=4 found=3\n | 4
outs Z.aut | bad Z.aut header\n | 4
outs O.aut | bad O.aut line 2\n | 4
outs G.aut | labels unsorted coin\n | 4
outs J.aut | labels reserved delta\n | 4
outs --inputs inputs G.aut | states 0\nshows delta\ninput coin\n | 0
outs --inputs faulty G.aut | bad faulty line 2\n | 4
outs --inputs N G.aut | fault N\n | 5
outs --inputs N Z.aut | bad Z.aut header\n | 4
outs --marks suffix H.aut | states 0\nshows go!\n | 0
outs --marks suffix S.aut | labels unsorted ?coin\n | 4
outs D.aut N | divergent D.aut 0\n | 4
outs S.aut N | fault N\n | 5
check --inputs inputs G.aut G.aut | conforms pairs=2\n | 0
check --marks suffix H.aut H.aut | conforms pairs=2\n | 0
check --inputs=faulty S.aut M.aut | bad faulty line 2\n | 4
angelic G.aut --inputs inputs | des (0,2,2)\n(0,"coin",1)\n(1,"coin",1)\n | 0
"#;

#[test]
fn offers(rt: HostRuntime) -> Result<(), Fail> {
    answers(&rt, rt.alloc(), FILES, OFFERED)
}

/// Words, text and status: words that are refused.
const REFUSED: &str = r#"
 | usage no-command\n | 3
chek S.aut I.aut | usage unknown-command\n | 3
--help | usage unknown-command\n | 3
check S.aut | usage words\n | 3
angelic S.aut S.aut | usage words\n | 3
outs --pairs 3 S.aut | usage words\n | 3
check --pairs 0 S.aut I.aut | usage value\n | 3
check --marks suffix --inputs inputs S.aut I.aut | usage clash\n | 3
check --members 1 --uioco S.aut I.aut | undecided imp-members=2 depth=1\n | 2
"#;

#[test]
fn refuses_words(rt: HostRuntime) -> Result<(), Fail> {
    answers(&rt, rt.alloc(), FILES, REFUSED)
}

/// Words, text and status: divergent systems.
pub const QUIET: &str = r#"
check --divergence quiet D.aut D.aut | conforms pairs=1\n | 0
check --divergence quiet X.aut D.aut | violates\nshows delta\n | 1
outs --divergence quiet spin.aut | states 0 1\nshows delta\n | 0
outs --divergence quiet spin.aut quiet | states 1\nshows delta\n | 0
check --divergence loud D.aut D.aut | usage value\n | 3
outs --divergence quiet two.aut quiet | states 1 2\nshows delta\n | 0
outs two.aut | divergent two.aut 2 1\n | 4
outs --divergence quiet noisy.aut | states 0 1\nshows !x\nshows delta\n | 0
outs --divergence quiet noisy.aut quiet | states 0 1\nshows !x\nshows delta\n | 0
check --divergence quiet noisy.aut X.aut | conforms pairs=2\n | 0
check --divergence quiet X.aut noisy.aut | violates\nshows delta\n | 1
check X.aut far.aut | divergent far.aut 3 2\n | 4
check --divergence quiet X.aut far.aut | conforms pairs=2\n | 0
outs --divergence quiet after.aut a | states 1\nshows delta\n | 0
angelic --divergence quiet after.aut | des (0,3,2)\n(0,"?a",1)\n(1,"tau",1)\n(1,"?a",1)\n | 0
check --divergence refuse S.aut D.aut | divergent D.aut 0\n | 4
"#;

#[test]
fn reads_divergent_systems_as_quiet(rt: HostRuntime) -> Result<(), Fail> {
    answers(&rt, rt.alloc(), FILES, QUIET)
}

/// A violation by the opening pair isn't told where that pair is above a limit.
pub const LIMITED: &str = r#"
check --members 1 T.aut X.aut | undecided spec-members=2 depth=0\n | 2
check --members 1 X.aut T.aut | undecided imp-members=2 depth=0\n | 2
check --members 2 X.aut T.aut | violates\nshows delta\n | 1
"#;

#[test]
fn a_limit_comes_before_a_violation(rt: HostRuntime) -> Result<(), Fail> {
    answers(&rt, rt.alloc(), FILES, LIMITED)
}

#[test]
fn tells_that_the_output_failed(rt: HostRuntime) -> Result<(), Fail> {
    let alloc = rt.alloc();
    let mut fails = Numbers::new(alloc);
    fails.push(2)?;
    let mut files = MemFiles::new(contents(alloc, FILES)?, Numbers::new(alloc));
    let mut out = MemSink::new(alloc, 1000, 4, fails)?;
    let words = words_of(alloc, "check S.aut I.aut")?;
    let status = ran(
        alloc,
        &words,
        &mut files,
        &mut out,
        &mut SureDialer::new(alloc),
    );
    assert_eq!(rt; out.written(), b"conf".as_slice());
    assert_eq!(rt; status.code(), 6);
    Ok(())
}

/// Words, the read that fails, and the text.
const UNREAD: &str = r#"
check --inputs inputs G.aut T.aut | 1 | fault G.aut\n
check --inputs inputs G.aut T.aut | 2 | fault G.aut\n
check --inputs inputs G.aut T.aut | 3 | fault T.aut\n
check --inputs inputs G.aut T.aut | 4 | fault T.aut\n
check --inputs inputs G.aut T.aut | 5 | fault inputs\n
check --inputs inputs G.aut T.aut | 6 | fault inputs\n
outs S.aut coin | 1 | fault S.aut\n
outs S.aut coin | 2 | fault S.aut\n
outs S.aut coin | 3 | fault coin\n
outs S.aut coin | 4 | fault coin\n
"#;

/// Read k fails, for each k: the run answers with the file that is being read, and reads no more.
#[test]
fn a_failed_read_ends_the_run(rt: HostRuntime) -> Result<(), Fail> {
    for case in UNREAD.lines() {
        if is_case(case) {
            fails_at(&rt, rt.alloc(), FILES, case)?;
        }
    }
    Ok(())
}

fn fails_at<R: Abort>(rt: &R, alloc: Global, files: &str, case: &str) -> Result<(), Fail> {
    let failing = number(cell(case, 1));
    let mut fails = Numbers::new(alloc);
    fails.push(failing)?;
    let mut files = MemFiles::new(contents(alloc, files)?, fails);
    let mut out = MemSink::new(alloc, 1000, 1000, Numbers::new(alloc))?;
    let words = words_of(alloc, cell(case, 0))?;
    let status = ran(
        alloc,
        &words,
        &mut files,
        &mut out,
        &mut SureDialer::new(alloc),
    );
    let want = bytes_of(alloc, cell(case, 2))?;
    assert_eq!(rt; out.written(), want.as_slice(), "{case}");
    assert_eq!(rt; status.code(), 5, "{case}");
    assert_eq!(rt; files.reads(), failing, "{case}");
    Ok(())
}
