//! Sessions over links in memory: words, what the link answers, what went over it, and the log.
ghost use Rattle.std.specs.Prelude.{IfOk};
ghost use Rattle.edge_io.specs.Dials.{IsNewLink};
ghost use Rattle.edge_io.specs.LinksInMemory.{told_in_memory};

use crate::table::{bytes_of, cell, is_case, number, words_of};
use crate::tests::{contents, ran};
use edge_io::{
    Act, Dialer, Heard, Links, MemDialer, MemFiles, MemLink, MemSink, Numbers, Replies, Reply,
    Room, are_said,
};
use lts_base::{Listed, Memory};
use std::alloc::{AllocError, Global};
use std::process::Abort;
use std::test::Fail;

/// The files that the cases speak of: name and content.
pub const FILES: &str = r#"
S.aut | des (0,3,3)\n(0,"?coin",1)\n(1,"!tea",2)\n(1,"!coffee",2)\n
X.aut | des (0,1,2)\n(0,"!x",1)\n
E.aut | des (0,0,1)\n
F.aut | des (0,1,1)\n(0,"!x",0)\n
T.aut | des (0,1,2)\n(0,"tau",1)\n
D.aut | des (0,1,1)\n(0,"tau",0)\n
Q.aut | des (0,1,2)\n(0,"?coin",1)\n
s | send ?coin\nobserve\n
crossed | send ?coin\n\nsend ?coin\r\n
observing | observe\n
other | send ?coin\n\nlook\n
output | observe\nsend !tea\n
g | ?coin\n!tea\n
long | ?coin\n!tea\ndelta\n
none | \n\n
"#;

/// Words, the answers of the link, the calls that fail, the acts of the link, the text, whole or
/// after the log's head, and the status.
const SESSIONS: &str = r#"
# the whole text
drive S.aut a --script s --steps 2 --patience 3 | idle line=!tea | | look-idle send=?coin hear-line=!tea | torx log 2\nmode ioco\ndivergence refuse\nspec cd28e582315bdc169c69ae81cdcf753033b788b46c73e861a1af0b43eea818da\npatience 3\nsteps 2\nsent ?coin\nheard !tea\nend 2 pass\n | 0
# what follows the head
drive S.aut a --script s --steps 2 --patience 3 | idle line=!tea | | look-idle send=?coin hear-line=!tea | sent ?coin\nheard !tea\nend 2 pass\n | 0
drive S.aut a --script s --steps 2 --patience 3 | idle line=!milk | | look-idle send=?coin hear-line=!milk | sent ?coin\nheard !milk\nend 2 fail\n | 1
drive S.aut a --script s --steps 2 --patience 3 | line=!tea | | look-line=!tea | heard !tea\nend 1 fail\n | 1
drive X.aut a --steps 2 --patience 2 | mid=! mid=! | | hear-mid=! hear-mid=! | left !\nend 0 stalled\n | 2
drive S.aut a --goal g --patience 3 | idle line=!tea | | look-idle send=?coin hear-line=!tea | sent ?coin\nheard !tea\nend 2 pass\n | 0
drive E.aut a --steps 1 --patience 3 | idle idle mid=z idle idle idle | | hear-idle hear-idle hear-mid=z hear-idle hear-idle hear-idle | delta\nend 1 pass\n | 0
drive T.aut a --members 1 | | | | end 0 full\n | 2
# a line that comes with the last idle read of a row isn't after quiescence
drive E.aut a --steps 1 --patience 3 | idle idle line=x | | hear-idle hear-idle hear-line=x | heard x\nend 1 fail\n | 1
drive X.aut a --steps 1 --patience 2 | idle mid=! line=!x | | hear-idle hear-mid=! hear-line=!x | heard !x\nend 1 pass\n | 0
# the input that was chosen is dropped where a line crosses it, and chosen anew
drive S.aut a --script crossed --steps 2 | line=!tea | | look-line=!tea | heard !tea\nend 1 fail\n | 1
drive S.aut a --script s --steps 2 --patience 2 | mid=! idle line=!coffee | | look-mid=! look-idle send=?coin hear-line=!coffee | sent ?coin\nheard !coffee\nend 2 pass\n | 0
drive S.aut a --script s --steps 2 --patience 2 | mid=! mid=!t | | look-mid=! look-mid=!t | left !t\nend 0 stalled\n | 2
# the end of the link, with and without bytes, and a line that is too long
drive S.aut a --script s | end= | | look-end= | end 0 ended\n | 2
drive X.aut a --patience 2 | end=! | | hear-end=! | left !\nend 0 ended\n | 2
drive X.aut a --patience 2 | long=!xyz | | hear-long=!xyz | left !xyz\nend 0 long\n | 2
drive S.aut a --script s | long=!xyz | | look-long=!xyz | left !xyz\nend 0 long\n | 2
# a text that is no output
drive X.aut a --steps 1 | line= | | hear-line= | heard \nend 1 fail\n | 1
drive S.aut a --script s --steps 2 | idle line=?coin | | look-idle send=?coin hear-line=?coin | sent ?coin\nheard ?coin\nend 2 fail\n | 1
# quiescence that isn't allowed, and what isn't offered is observed
drive X.aut a --patience 2 | idle idle | | hear-idle hear-idle | delta\nend 1 fail\n | 1
drive S.aut a --script crossed --steps 2 --patience 1 | idle idle | | look-idle send=?coin hear-idle | sent ?coin\ndelta\nend 2 fail\n | 1
# the sets grow past the members
drive S.aut a --script s --members 1 | | | | end 0 full\n | 2
# a call fails: the dial, each kind of call of the link
drive S.aut a --script s --steps 2 --patience 3 | idle line=!tea | dial | | end 0 broken\n | 7
drive S.aut a --script s --steps 2 --patience 3 | idle line=!tea | look | | end 0 broken\n | 7
drive S.aut a --script s --steps 2 --patience 3 | idle line=!tea | send | look-idle | end 0 broken\n | 7
drive S.aut a --script s --steps 2 --patience 3 | idle line=!tea | hear | look-idle send=?coin | sent ?coin\nend 1 broken\n | 7
drive S.aut a --script s --steps 2 --patience 3 | idle line=!tea | write | look-idle send=?coin hear-line=!tea | | 6
# nothing is dialled where words or files are refused
drive S.aut a --goal long --steps 2 | | | | bad long goal-length\n | 4
drive S.aut a --goal none | | | | bad none goal-length\n | 4
drive S.aut a --goal s | | | | bad s unknown-label 1\n | 4
drive S.aut a --script other | | | | bad other line 3\n | 4
drive S.aut a --script output | | | | bad output unknown-label 2\n | 4
drive S.aut a --script nowhere | | | | fault nowhere\n | 5
drive D.aut a | | | | divergent D.aut 0\n | 4
drive S.aut a --script s --goal g | | | | usage clash\n | 3
drive S.aut a --seed 1 --goal g | | | | usage clash\n | 3
drive S.aut a --seed 1 --script s | | | | usage clash\n | 3
drive S.aut | | | | usage words\n | 3
drive S.aut a b | | | | usage words\n | 3
drive S.aut a --steps 0 | | | | usage value\n | 3
drive S.aut a --steps 100001 | | | | usage value\n | 3
drive S.aut a --patience 1001 | | | | usage value\n | 3
drive S.aut a --tick 10001 | | | | usage value\n | 3
drive S.aut a --members 16777217 | | | | usage value\n | 3
# a session over a simulation
rehearse X.aut X.aut --steps 2 --patience 1 | | | | heard !x\ndelta\nend 2 pass\n | 0
rehearse --divergence quiet D.aut D.aut --steps 1 --patience 2 | | | | delta\nend 1 pass\n | 0
rehearse E.aut X.aut --seed 7 | | | | heard !x\nend 1 fail\n | 1
rehearse X.aut E.aut --patience 3 | | | | delta\nend 1 fail\n | 1
rehearse T.aut T.aut --members 1 | | | | end 0 full\n | 2
rehearse X.aut Q.aut | | | | not-enabled Q.aut state=1 input=?coin\n | 4
rehearse D.aut D.aut | | | | divergent D.aut 0\n | 4
rehearse X.aut nowhere | | | | fault nowhere\n | 5
rehearse X.aut | | | | usage words\n | 3
rehearse X.aut X.aut --tick 5 | | | | usage words\n | 3
rehearse X.aut X.aut --seed 18446744073709551616 | | | | usage value\n | 3
rehearse X.aut X.aut --seed 18446744073709551615 --steps 1 | | | | heard !x\nend 1 pass\n | 0
"#;

/// What a look or a hearing of this name meets.
fn heard_named(name: &str) -> Heard {
    match name {
        "line" => Heard::Line,
        "mid" => Heard::IdleMid,
        "long" => Heard::TooLong,
        "end" => Heard::End,
        _ => Heard::Idle,
    }
}

fn name_of(heard: Heard) -> &'static str {
    match heard {
        Heard::Line => "line=",
        Heard::IdleMid => "mid=",
        Heard::TooLong => "long=",
        Heard::End => "end=",
        Heard::Idle => "idle",
    }
}

/// The answers of a cell.
fn replies(alloc: Global, cell: &str) -> Result<Replies, Memory> {
    let mut replies = Listed::new(alloc);
    for word in cell.split_whitespace() {
        let (name, text) = word.split_once('=').unwrap_or((word, ""));
        replies.push(Reply {
            heard: heard_named(name),
            text: Listed::from_vec(Vec::from_slice(alloc, text.as_bytes())?),
        })?;
    }
    Ok(replies)
}

/// The first call is to fail, where it is the one of this name.
pub fn first_of(alloc: Global, failing: &str, name: &str) -> Result<Numbers, Memory> {
    let mut numbers = Numbers::new(alloc);
    if failing == name {
        numbers.push(1)?;
    }
    Ok(numbers)
}

/// The acts as a cell writes them.
fn acts_text(alloc: Global, link: &MemLink) -> Result<Vec<u8>, Memory> {
    let mut text = Vec::new(alloc);
    for act in link.acts(alloc)?.as_slice() {
        if !text.is_empty() {
            text.push(b' ')?;
        }
        put_act(&mut text, act)?;
    }
    Ok(text)
}

fn put_act(text: &mut Vec<u8>, act: &Act) -> Result<(), AllocError> {
    let bytes = match act {
        Act::Looked(heard, bytes) => {
            text.extend_from_slice(b"look-")?;
            text.extend_from_slice(name_of(*heard).as_bytes())?;
            bytes
        }
        Act::Listened(heard, bytes) => {
            text.extend_from_slice(b"hear-")?;
            text.extend_from_slice(name_of(*heard).as_bytes())?;
            bytes
        }
        Act::Gave(bytes) => {
            text.extend_from_slice(b"send=")?;
            bytes
        }
    };
    text.extend_from_slice(bytes.as_slice())
}

/// The text after the head of a log: its first six lines.
pub fn after_head(text: &[u8]) -> &[u8] {
    if !text.starts_with(b"torx log 2\n") {
        return text;
    }
    let mut rest = text;
    for _ in 0..6 {
        match rest.iter().position(|byte| *byte == b'\n') {
            Some(place) => rest = &rest[place + 1..],
            None => return b"",
        }
    }
    rest
}

/// A link that gives the answers of a case, and of which the call that the case names fails.
fn link_of(alloc: Global, case: &str, room: Room) -> Result<MemLink, Memory>
    ensures { IfOk result (λ link. IsNewLink (told_in_memory link)) }
{
    let failing = cell(case, 2);
    let replies = replies(alloc, cell(case, 1))?;
    if !are_said(replies.as_slice()) {
        return Err(Memory);
    }
    let looks = first_of(alloc, failing, "look")?;
    let hears = first_of(alloc, failing, "hear")?;
    let sends = first_of(alloc, failing, "send")?;
    MemLink::new(alloc, replies, room, looks, hears, sends)
}

/// The dialer of a case.
fn dialer_of(alloc: Global, case: &str) -> Result<MemDialer<MemLink>, Memory> {
    let room = Room {
        entries: 100,
        bytes: 10_000,
    };
    let dials = first_of(alloc, cell(case, 2), "dial")?;
    let mut links = Links::new(alloc);
    links.push(link_of(alloc, case, room)?)?;
    MemDialer::new(alloc, links, room, dials)
}

/// What a case came to: the status, what was written, and the acts of the link.
#[derive(Drop)]
struct Seen {
    code: u8,
    written: Vec<u8>,
    acts: Vec<u8>,
}

/// What was made of a session.
fn seen_of(alloc: Global, code: u8, written: &[u8], ended: &[MemLink]) -> Result<Seen, Memory> {
    let written = Vec::from_slice(alloc, written)?;
    let acts = match ended {
        [link, ..] => acts_text(alloc, link)?,
        [] => Vec::new(alloc),
    };
    Ok(Seen {
        code,
        written,
        acts,
    })
}

/// Runs the session of a case.
fn run_session(alloc: Global, case: &str) -> Result<Seen, Memory> {
    let mut dialer = dialer_of(alloc, case)?;
    let mut files = MemFiles::new(contents(alloc, FILES)?, Numbers::new(alloc));
    let writes = first_of(alloc, cell(case, 2), "write")?;
    let mut out = MemSink::new(alloc, 1000, 1000, writes)?;
    let words = words_of(alloc, cell(case, 0))?;
    let status = ran(alloc, &words, &mut files, &mut out, &mut dialer);
    seen_of(alloc, status.code(), out.written(), dialer.ended())
}

/// The text that is compared with what is wanted: the whole one, where that has a log's head.
fn told<'a>(text: &'a [u8], want: &[u8]) -> &'a [u8] {
    if want.starts_with(b"torx log 2\n") {
        text
    } else {
        after_head(text)
    }
}

/// Runs the session of a case, and compares what it came to.
fn session<R: Abort>(rt: &R, alloc: Global, case: &str) -> Result<(), Fail> {
    let seen = run_session(alloc, case)?;
    let want = bytes_of(alloc, cell(case, 4))?;
    let text = told(seen.written.as_slice(), want.as_slice());
    assert_eq!(rt; text, want.as_slice(), "{case}");
    assert_eq!(rt; u64::from(seen.code), number(cell(case, 5)), "{case}");
    assert_eq!(rt; seen.acts.as_slice(), cell(case, 3).as_bytes(), "{case}");
    Ok(())
}

#[test]
fn sessions(rt: HostRuntime) -> Result<(), Fail> {
    let alloc = rt.alloc();
    for case in SESSIONS.lines() {
        if is_case(case) {
            session(&rt, alloc, case)?;
        }
    }
    Ok(())
}
