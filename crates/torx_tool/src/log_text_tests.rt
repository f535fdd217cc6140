//! Logs: texts, what `replay` reads of them, and the verdicts.
use crate::table::{bytes_of, cell, is_case, number, words_of};
use crate::tests::ran;
use edge_io::{MemFiles, MemSink, NamedText, Numbers, SureDialer};
use lts_base::{Listed, Memory};
use std::alloc::{AllocError, Global};
use std::process::Abort;
use std::test::Fail;

/// The content of the specification of the cases, whose digest stands in `TWO`.
const SPEC: &str = "des (0,3,3)\n(0,\"?coin\",1)\n(1,\"!tea\",2)\n(1,\"!coffee\",2)\n";

/// A log of version 1.
const ONE: &str =
    "torx log 1\nmode ioco\npatience 3\nsteps 2\nsent ?coin\nheard !milk\nend 2 fail\n";

/// A log of version 2.
const TWO: &str =
    "torx log 2\nmode uioco\ndivergence refuse\nspec cd28e582315bdc169c69ae81cdcf753033b788b46c73e861a1af0b43eea818da\npatience 3\nsteps 4\nsent ?coin\nheard \ndelta\nleft !t\nend 3 stalled\n";

/// What `replay` prints of a log against `SPEC`.
fn told(alloc: Global, log: &[u8]) -> Result<Vec<u8>, Memory> {
    let mut contents = Listed::new(alloc);
    for (name, content) in [(b"S.aut".as_slice(), SPEC.as_bytes()), (b"l", log)] {
        contents.push(NamedText {
            name: Listed::from_vec(Vec::from_slice(alloc, name)?),
            content: Listed::from_vec(Vec::from_slice(alloc, content)?),
        })?;
    }
    let mut files = MemFiles::new(contents, Numbers::new(alloc));
    let mut out = MemSink::new(alloc, 1000, 1000, Numbers::new(alloc))?;
    let words = words_of(alloc, "replay S.aut l")?;
    let _ = ran(
        alloc,
        &words,
        &mut files,
        &mut out,
        &mut SureDialer::new(alloc),
    );
    Ok(Vec::from_slice(alloc, out.written())?)
}

/// Whole texts, and what is told of them.
const TEXTS: &str = r#"
 | bad l cut\n
torx log 9\n | bad l version\n
torx log 9 | bad l cut\n
torx log 1 | bad l cut\n
\n | bad l version\n
torx log 1\r\n | bad l version\n
\20torx log 1\n | bad l version\n
torx log 12\n | bad l version\n
torx log 1\nmode ioco\npatience 3\nsteps 2\nsent ?coin\nheard !milk\nend 2 fail\n | fail 2\n
torx log 2\nmode uioco\ndivergence refuse\nspec cd28e582315bdc169c69ae81cdcf753033b788b46c73e861a1af0b43eea818da\npatience 3\nsteps 4\nsent ?coin\nheard \ndelta\nleft !t\nend 3 stalled\n | fail 2\n
# an ending is not trusted, and the number of its entries is
torx log 1\nmode ioco\npatience 1\nsteps 1\nend 0 fail\n | pass\n
torx log 1\nmode ioco\npatience 1\nsteps 1\nend 1 fail\n | bad l line 5\n
torx log 1\nmode ioco\npatience 1\nsteps 1\nend 00 fail\n | bad l line 5\n
torx log 1\nmode ioco\npatience 1\nsteps 1\nend 0 Fail\n | bad l line 5\n
torx log 1\nmode ioco\npatience 1\nsteps 1\nend 0 fail \n | bad l line 5\n
torx log 1\nmode ioco\npatience 1\nsteps 1\nend 0\n | bad l line 5\n
# as many entries as steps, and one more
torx log 1\nmode ioco\npatience 1\nsteps 1\ndelta\nend 1 pass\n | pass\n
torx log 1\nmode ioco\npatience 1\nsteps 1\ndelta\ndelta\nend 2 pass\n | bad l line 6\n
# after the end: a second log, and what is none
torx log 1\nmode ioco\npatience 1\nsteps 1\nend 0 pass\ntorx log 9\n | bad l line 6\n
torx log 1\nmode ioco\npatience 1\nsteps 1\nend 0 pass\n\n | bad l line 6\n
torx log 1\nmode ioco\npatience 1\nsteps 1\nend 0 pass\ntorx log 1\n | bad l cut\n
torx log 1\nmode ioco\npatience 1\nsteps 1\nend 0 pass\nx | bad l cut\n
# bytes are left after the entries, once
torx log 1\nmode ioco\npatience 1\nsteps 9\nleft x\ndelta\nend 1 long\n | bad l line 6\n
torx log 1\nmode ioco\npatience 1\nsteps 9\nleft x\nleft x\nend 0 long\n | bad l line 6\n
torx log 1\nmode ioco\npatience 1\nsteps 9\nleft \nend 0 long\n | bad l line 5\n
torx log 1\nmode ioco\npatience 1\nsteps 9\nleft  \nend 0 long\n | pass\n
torx log 1\nmode ioco\npatience 1\nsteps 9\nsent \nend 1 pass\n | bad l line 5\n
"#;

#[test]
fn reads_texts(rt: HostRuntime) -> Result<(), Fail> {
    let alloc = rt.alloc();
    for case in TEXTS.lines() {
        if is_case(case) {
            let got = told(alloc, bytes_of(alloc, cell(case, 0))?.as_slice())?;
            let want = bytes_of(alloc, cell(case, 1))?;
            assert_eq!(rt; got.as_slice(), want.as_slice(), "{case}");
        }
    }
    Ok(())
}

/// Entries of a log, and the verdict.
const VERDICTS: &str = r#"
 | pass\n
delta\n | pass\n
sent ?coin\nheard !tea\n | pass\n
sent ?coin\nheard !tea\ndelta\ndelta\n | pass\n
sent ?coin\nheard !milk\n | fail 2\n
sent ?coin\ndelta\n | fail 2\n
heard !tea\n | fail 1\n
heard\20\n | fail 1\n
# a text that is heard and is an input is strange, and so is one that is sent and is an output
sent ?coin\nheard ?coin\n | fail 2\n
sent ?coin\nsent !tea\n | off 2\n
sent ?coin\nsent ?coin\n | off 2\n
sent delta\n | off 1\n
heard delta\n | fail 1\n
# the first place counts
sent ?tea\nheard !milk\ndelta\n | off 1\n
"#;

#[test]
fn judges_entries(rt: HostRuntime) -> Result<(), Fail> {
    let alloc = rt.alloc();
    for case in VERDICTS.lines() {
        if is_case(case) {
            let log = log_of(alloc, bytes_of(alloc, cell(case, 0))?.as_slice())?;
            let got = told(alloc, log.as_slice())?;
            let want = bytes_of(alloc, cell(case, 1))?;
            assert_eq!(rt; got.as_slice(), want.as_slice(), "{case}");
        }
    }
    Ok(())
}

/// A log of these entries.
fn log_of(alloc: Global, entries: &[u8]) -> Result<Vec<u8>, AllocError> {
    let mut text = Vec::from_slice(alloc, b"torx log 1\nmode ioco\npatience 1\nsteps 9\n")?;
    text.extend_from_slice(entries)?;
    let count = entries.iter().filter(|b| **b == b'\n').count();
    text.extend_from_slice(format!(in alloc; "end {count} pass\n")?.as_bytes())?;
    Ok(text)
}

/// Lines that are wrong in version 1, each in the place of the line of `ONE` with this number.
const WRONG_ONE: &str = r#"
2 | mode
2 | mode IOCO
2 | mode ioco\20
2 | divergence refuse
3 | patience 0
3 | patience 03
3 | patience 1001
3 | patience 4294967296
3 | patience 18446744073709551616
3 | patience  3
3 | patience 3\r
3 | patience
3 | steps 2
4 | steps 0
4 | steps 02
4 | steps 100001
4 | steps +2
4 | step 2
5 | sent
5 | sent\20
5 | Sent ?coin
5 | delta\20
5 | 
5 | observe
5 | end 0 pas
6 | heard
6 | torx log 1
6 | end 2 fail
6 | end 1
6 | end 1  fail
7 | end 1 fail
7 | end 3 fail
7 | end 2 failed
7 | heard !tea
"#;

/// Lines that are wrong in version 2, each in the place of the line of `TWO` with this number.
const WRONG_TWO: &str = r#"
2 | divergence refuse
3 | divergence
3 | divergence Quiet
3 | patience 3
4 | spec\20
4 | spec 00
4 | spec 000000000000000000000000000000000000000000000000000000000000000
4 | spec 00000000000000000000000000000000000000000000000000000000000000000
4 | spec 000000000000000000000000000000000000000000000000000000000000000A
4 | spec 000000000000000000000000000000000000000000000000000000000000000g
4 | patience 3
5 | patience 0
6 | steps 2x
"#;

/// The text with another line in the place of the one with this number, counted from 1.
fn with_line(alloc: Global, text: &[u8], place: u64, line: &[u8]) -> Result<Vec<u8>, AllocError> {
    let mut made = Vec::new(alloc);
    let mut at = 1u64;
    for piece in text.split(|b| *b == b'\n') {
        if at > 1 {
            made.push(b'\n')?;
        }
        made.extend_from_slice(if at == place { line } else { piece })?;
        at = at.wrapping_add(1);
    }
    Ok(made)
}

fn refuses<R: Abort>(rt: &R, alloc: Global, text: &str, table: &str) -> Result<(), Fail> {
    for case in table.lines() {
        if is_case(case) {
            let place = number(cell(case, 0));
            let line = bytes_of(alloc, cell(case, 1))?;
            let changed = with_line(alloc, text.as_bytes(), place, line.as_slice())?;
            let want = format!(in alloc; "bad l line {place}\n")?;
            let got = told(alloc, changed.as_slice())?;
            assert_eq!(rt; got.as_slice(), want.as_bytes(), "{case}");
        }
    }
    Ok(())
}

#[test]
fn names_the_first_wrong_line(rt: HostRuntime) -> Result<(), Fail> {
    refuses(&rt, rt.alloc(), ONE, WRONG_ONE)?;
    refuses(&rt, rt.alloc(), TWO, WRONG_TWO)
}

/// Each front of two logs but the first log alone is cut.
#[test]
fn each_part_is_cut(rt: HostRuntime) -> Result<(), Fail> {
    let alloc = rt.alloc();
    let mut both = Vec::from_slice(alloc, ONE.as_bytes())?;
    both.extend_from_slice(TWO.as_bytes())?;
    for end in 0..both.len() {
        let want = if end == ONE.len() {
            "fail 2\n"
        } else {
            "bad l cut\n"
        };
        let got = told(alloc, &both[..end])?;
        assert_eq!(rt; got.as_slice(), want.as_bytes(), "{end}");
    }
    let got = told(alloc, both.as_slice())?;
    assert_eq!(rt; got.as_slice(), b"fail 2\nfail 2\n".as_slice());
    Ok(())
}

/// A log with a text of so many bytes that aren't UTF-8 on a line of this word.
fn long(alloc: Global, word: &str, count: u64, end: &[u8]) -> Result<Vec<u8>, AllocError> {
    let mut text = Vec::from_slice(alloc, b"torx log 1\nmode ioco\npatience 1\nsteps 1\n")?;
    text.extend_from_slice(word.as_bytes())?;
    text.push(b' ')?;
    for _ in 0..count {
        text.push(200)?;
    }
    text.push(b'\n')?;
    text.extend_from_slice(end)?;
    Ok(text)
}

/// The word of a line, the bytes after it, the lines that follow, and what is told.
const LONG: &str = r#"
sent | 1 | end 1 pass\n | off 1\n
sent | 1024 | end 1 pass\n | off 1\n
sent | 1025 | end 1 pass\n | bad l line 5\n
heard | 0 | end 1 pass\n | fail 1\n
heard | 1024 | end 1 pass\n | fail 1\n
heard | 1025 | end 1 pass\n | bad l line 5\n
left | 1 | end 0 long\n | pass\n
left | 1025 | end 0 long\n | pass\n
left | 1026 | end 0 long\n | bad l line 5\n
"#;

#[test]
fn texts_need_not_be_utf8(rt: HostRuntime) -> Result<(), Fail> {
    let alloc = rt.alloc();
    for case in LONG.lines() {
        if is_case(case) {
            let end = bytes_of(alloc, cell(case, 2))?;
            let text = long(alloc, cell(case, 0), number(cell(case, 1)), end.as_slice())?;
            let got = told(alloc, text.as_slice())?;
            let want = bytes_of(alloc, cell(case, 3))?;
            assert_eq!(rt; got.as_slice(), want.as_slice(), "{case}");
        }
    }
    Ok(())
}
