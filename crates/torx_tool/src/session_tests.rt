//! Sessions: each cell of their table, and drives with the acts of their links.
ghost use Rattle.std.specs.Prelude.{◌≡◌, ◌<◌, ◌≤◌, length, IfOk, IfSome};
ghost use Rattle.log_text.specs.declared.limits.TheConstants.{MOST_PATIENCE, MOST_STEPS};
ghost use Rattle.lts_base.specs.Alphabet.{IsOver as IsSystemOver};
ghost use Rattle.session_core.specs.Table.{opening};
ghost use Rattle.tool_base.specs.Loaded.{IsOneOver};
ghost use Rattle.walk_core.specs.Walked.{IsFresh};

use crate::table::{bytes_of, cell, is_case, number};
use crate::tests::contents;
use edge_io::{Act, Heard, Link, MemFiles, MemLink, Numbers, Replies, Reply, Room, are_said};
use log_text::limits::{MOST_PATIENCE, MOST_STEPS};
use log_text::{Ending, print_log};
use lts_base::{Divergence, Item, Labels, Listed, Memory, Mode, Trace};
use session_core::drive::drive;
use session_core::{Action, Event, Script, Scripted, Session, Setup, Verdict};
use std::alloc::{AllocError, Global};
use std::marker::Brand;
use std::process::Abort;
use std::sync::ledger::{Blank, Ledger};
use std::test::Fail;
use tool_base::{OneSystem, one_system};
use torx_words::Sorting;
use walk_core::{Choice, Choose, LazyWalk, PlainWalk, Steps, Walk, WalkError};

/// The systems of the cases.
const SYSTEMS: &str = r#"
S | des (0,3,3)\n(0,"?coin",1)\n(1,"!tea",2)\n(1,"!coffee",2)\n
X | des (0,2,2)\n(0,"!x",1)\n(1,"!x",1)\n
E | des (0,0,1)\n
R | des (0,4,3)\n(0,"?a",1)\n(0,"!x",0)\n(1,"!x",1)\n(1,"?a",2)\n
"#;

/// System, patience, most steps, goal, events, what is waited for then, and the log from its entries
/// on. Of the events `-` is the choice to observe, `+` that the input went out, `.` an idle read,
/// `~` one that met these bytes of a line, `=` a line, `>` bytes of a line that is too long, `<` the
/// end after these bytes; all others are chosen labels. The last event of a case may not fit: `unfit`.
const CELLS: &str = r#"
# a choice is waited for
S | 3 | 2 |  |  | ask | end 0 broken\n
S | 3 | 2 |  | ?coin | look | end 0 broken\n
S | 3 | 2 |  | !tea | hear | end 0 broken\n
S | 3 | 2 |  | - | hear | end 0 broken\n
S | 3 | 2 |  | ?other | hear | end 0 broken\n
S | 3 | 2 |  | = | unfit | end 0 broken\n
S | 3 | 2 |  | . | unfit | end 0 broken\n
S | 3 | 2 |  | ~z | unfit | end 0 broken\n
S | 3 | 2 |  | >z | unfit | end 0 broken\n
S | 3 | 2 |  | < | unfit | end 0 broken\n
S | 3 | 2 |  | + | unfit | end 0 broken\n
# a look: idle lets the input out, a line crosses it
R | 3 | 2 |  | ?a . | send | end 0 broken\n
R | 3 | 2 |  | ?a ~! | look | end 0 broken\n
R | 3 | 2 |  | ?a ~! ~!x . | send | end 0 broken\n
R | 3 | 2 |  | ?a ~! ~!x ~!x | stalled | left !x\nend 0 stalled\n
R | 3 | 2 |  | ?a =!x | ask | heard !x\nend 1 broken\n
R | 3 | 1 |  | ?a =!x | pass | heard !x\nend 1 pass\n
S | 3 | 2 |  | ?coin =!tea | fail 1 | heard !tea\nend 1 fail\n
S | 3 | 2 |  | ?coin =?coin | fail 1 | heard ?coin\nend 1 fail\n
S | 3 | 2 |  | ?coin = | fail 1 | heard \nend 1 fail\n
R | 3 | 2 |  | ?a >zz | long | left zz\nend 0 long\n
R | 3 | 2 |  | ?a <zz | ended | left zz\nend 0 ended\n
R | 3 | 2 |  | ?a < | ended | end 0 ended\n
R | 3 | 2 |  | ?a ?a | unfit | end 0 broken\n
R | 3 | 2 |  | ?a - | unfit | end 0 broken\n
R | 3 | 2 |  | ?a + | unfit | end 0 broken\n
# an input goes out
R | 3 | 2 |  | ?a . + | ask | sent ?a\nend 1 broken\n
R | 3 | 1 |  | ?a . + | pass | sent ?a\nend 1 pass\n
R | 3 | 9 | ?a | ?a . + | pass | sent ?a\nend 1 pass\n
R | 3 | 2 |  | ?a . ?a | unfit | end 0 broken\n
R | 3 | 2 |  | ?a . = | unfit | end 0 broken\n
R | 3 | 2 |  | ?a . . | unfit | end 0 broken\n
R | 3 | 2 |  | ?a . ~z | unfit | end 0 broken\n
R | 3 | 2 |  | ?a . >z | unfit | end 0 broken\n
R | 3 | 2 |  | ?a . < | unfit | end 0 broken\n
# a hearing: as many idle reads in a row as the patience are quiescence
S | 3 | 2 |  | - . . | hear | end 0 broken\n
S | 3 | 2 |  | - . . . | ask | delta\nend 1 broken\n
S | 1 | 2 |  | - . | ask | delta\nend 1 broken\n
S | 3 | 1 |  | - . . . | pass | delta\nend 1 pass\n
X | 2 | 2 |  | - . . | fail 1 | delta\nend 1 fail\n
S | 3 | 2 |  | - . . ~z . . | hear | end 0 broken\n
S | 3 | 2 |  | - . . ~z . . . | ask | delta\nend 1 broken\n
S | 3 | 2 |  | - ~z ~z . . ~z | stalled | left z\nend 0 stalled\n
S | 1 | 2 |  | - ~z | stalled | left z\nend 0 stalled\n
X | 3 | 2 |  | - =!x | ask | heard !x\nend 1 broken\n
X | 3 | 2 |  | - =!y | fail 1 | heard !y\nend 1 fail\n
X | 3 | 2 |  | - =!x - = | fail 2 | heard !x\nheard \nend 2 fail\n
X | 3 | 2 |  | - >z | long | left z\nend 0 long\n
X | 3 | 2 |  | - <z | ended | left z\nend 0 ended\n
X | 3 | 2 |  | - ?a | unfit | end 0 broken\n
X | 3 | 2 |  | - + | unfit | end 0 broken\n
# a line alone puts the count of unfinished reads to 0: it goes on over rounds
X | 2 | 9 |  | - ~! =!x - ~! =!x | ask | heard !x\nheard !x\nend 2 broken\n
R | 2 | 9 |  | ?a ~! . + - ~! | stalled | sent ?a\nleft !\nend 1 stalled\n
E | 2 | 9 |  | - ~z . . - ~z | stalled | delta\nleft z\nend 1 stalled\n
# an idle read is counted anew in each round, and after each unfinished one
E | 2 | 9 |  | - . . - . | hear | delta\nend 1 broken\n
# nothing fits a session that is done
E | 1 | 1 |  | - . - | unfit | delta\nend 1 pass\n
E | 1 | 1 |  | - . = | unfit | delta\nend 1 pass\n
E | 1 | 1 |  | - . . | unfit | delta\nend 1 pass\n
E | 1 | 1 |  | - . ~z | unfit | delta\nend 1 pass\n
E | 1 | 1 |  | - . >z | unfit | delta\nend 1 pass\n
E | 1 | 1 |  | - . < | unfit | delta\nend 1 pass\n
E | 1 | 1 |  | - . + | unfit | delta\nend 1 pass\n
# texts with an LF don't fit
X | 3 | 2 |  | - =!x\n | unfit | end 0 broken\n
X | 3 | 2 |  | - ~\n | unfit | end 0 broken\n
X | 3 | 2 |  | - >\n | unfit | end 0 broken\n
X | 3 | 2 |  | - <\n | unfit | end 0 broken\n
"#;

/// System, patience, most steps, goal, script, answers of the link, its acts, and the log from its
/// entries on. Acts: `l` a look, `h` a hearing, `s` a text that was sent.
const DRIVES: &str = r#"
S | 3 | 2 |  | ?coin - | . =!tea | l. s?coin h=!tea | sent ?coin\nheard !tea\nend 2 pass\n
S | 3 | 2 |  | ?coin - | . =!milk | l. s?coin h=!milk | sent ?coin\nheard !milk\nend 2 fail\n
X | 3 | 1 |  |  | ~! ~!x =!x | h~! h~!x h=!x | heard !x\nend 1 pass\n
X | 3 | 2 |  |  | <!x | h<!x | left !x\nend 0 ended\n
X | 3 | 2 |  |  | >zzz | h>zzz | left zzz\nend 0 long\n
X | 2 | 2 |  |  | ~! ~! | h~! h~! | left !\nend 0 stalled\n
S | 3 | 9 | ?coin !tea | ?coin | . =!tea | l. s?coin h=!tea | sent ?coin\nheard !tea\nend 2 pass\n
# quiescence one idle read too early, and over unfinished bytes, would leave answers of the link unasked
E | 3 | 1 |  |  | . . ~z . . . | h. h. h~z h. h. h. | delta\nend 1 pass\n
E | 3 | 1 |  |  | . . . . | h. h. h. | delta\nend 1 pass\n
E | 1 | 2 |  |  | . . . | h. h. | delta\ndelta\nend 2 pass\n
X | 3 | 1 |  |  | . . =!x | h. h. h=!x | heard !x\nend 1 pass\n
X | 3 | 1 |  |  | . . ~! . . =!x | h. h. h~! h. h. h=!x | heard !x\nend 1 pass\n
# a line that crosses an input: it isn't sent
R | 3 | 2 |  | ?a ?a | =!x . | l=!x l. s?a | heard !x\nsent ?a\nend 2 pass\n
R | 3 | 2 |  | ?a | ~! ~!x =!x . . =!x | l~! l~!x l=!x h. h. h=!x | heard !x\nheard !x\nend 2 pass\n
# an input that isn't offered is not sent
S | 1 | 1 |  | !tea | . | h. | delta\nend 1 pass\n
S | 3 | 2 |  | ?coin ?coin | . =!tea | l. s?coin h=!tea | sent ?coin\nheard !tea\nend 2 pass\n
# the other side ends at a look
S | 3 | 2 |  | ?coin |  | l< | end 0 ended\n
"#;

/// System, patience, most steps, goal, most members, events, the number of members for which the
/// last one is refused (0: it isn't), and what is waited for then.
const FULL: &str = r#"
R | 3 | 9 |  | 1 | ?a | 2 | ask
R | 3 | 9 |  | 2 | ?a | 0 | look
R | 3 | 9 |  | 1 | - =!x | 0 | ask
R | 3 | 9 |  | 1 | - ?a | 0 | hear
# the set of a chosen input counts although a line crosses the input
R | 3 | 9 |  | 2 | ?a =!x ?a . + ?a | 3 | ask
S | 3 | 9 |  | 2 | ?coin . + - =!tea | 3 | hear
S | 3 | 9 |  | 3 | ?coin . + - =!tea - . . . | 0 | ask
# what isn't shown asks for no set
S | 3 | 9 |  | 2 | ?coin . + - =!milk | 0 | fail 2
S | 3 | 9 |  | 2 | ?coin . + - . . . | 0 | fail 2
# a set that is there already isn't counted twice
E | 1 | 9 |  | 1 | - . - . - . | 0 | ask
"#;

/// The first byte of a word.
fn first_byte(word: &str) -> u8 {
    match word.as_bytes() {
        [mark, ..] => *mark,
        [] => 0,
    }
}

/// The word without its mark.
fn rest_of(word: &str) -> &str {
    for mark in ['.', '~', '=', '>', '<'] {
        if let Some(rest) = word.strip_prefix(mark) {
            return rest;
        }
    }
    word
}

/// The choice that a word stands for.
fn choice_of(labels: &Labels, word: &str) -> Choice {
    match labels.find(word.as_bytes()) {
        Some(label) => Choice::Input(label),
        None => {
            if word == "-" {
                Choice::Observe
            } else {
                Choice::Input(labels.count())
            }
        }
    }
}

/// The event that a word stands for, whose text is given.
fn event_of<'a>(labels: &Labels, word: &str, text: &'a [u8]) -> Event<'a> {
    match first_byte(word) {
        b'.' => Event::Idle,
        b'~' => Event::IdleMid(text),
        b'=' => Event::Line(text),
        b'>' => Event::TooLong(text),
        b'<' => Event::End(text),
        b'+' => Event::Sent,
        _ => Event::Choice(choice_of(labels, word)),
    }
}

/// The answer of a link that a word stands for.
fn reply_of(alloc: Global, word: &str) -> Result<Reply, AllocError> {
    let heard = match first_byte(word) {
        b'~' => Heard::IdleMid,
        b'=' => Heard::Line,
        b'>' => Heard::TooLong,
        b'<' => Heard::End,
        _ => Heard::Idle,
    };
    let text = Listed::from_vec(bytes_of(alloc, rest_of(word))?);
    Ok(Reply { heard, text })
}

/// The answers of a link that a cell stands for.
fn replies_of(alloc: Global, cell: &str) -> Result<Replies, Memory> {
    let mut replies = Listed::new(alloc);
    for word in cell.split_whitespace() {
        replies.push(reply_of(alloc, word)?)?;
    }
    Ok(replies)
}

/// The choices that a cell stands for.
fn script_of(alloc: Global, labels: &Labels, cell: &str) -> Result<Script, Memory> {
    let mut script = Listed::new(alloc);
    for word in cell.split_whitespace() {
        script.push(choice_of(labels, word))?;
    }
    Ok(script)
}

/// The items that a cell stands for.
fn items_of(alloc: Global, labels: &Labels, cell: &str) -> Result<Trace, Memory> {
    let mut items = Listed::new(alloc);
    for word in cell.split_whitespace() {
        let item = match labels.find(word.as_bytes()) {
            None => Item::Delta,
            Some(label) => {
                if label < labels.inputs() {
                    Item::Input(label)
                } else {
                    Item::Output(label)
                }
            }
        };
        items.push(item)?;
    }
    Ok(items)
}

/// What a case asks for.
fn setup_of(alloc: Global, labels: &Labels, case: &str) -> Result<Setup, Memory>
    ensures patience { IfOk result (λ s. (1 ≤ s.patience) × (s.patience ≤ MOST_PATIENCE)) }
    ensures steps { IfOk result (λ s. (1 ≤ s.steps) × (s.steps ≤ MOST_STEPS)) }
    ensures goal { IfOk result (λ s. IfSome s.goal (λ goal. (1 ≤ length goal) × (length goal ≤ s.steps))) }
{
    let patience = number(cell(case, 1)).clamp(1, u64::from(MOST_PATIENCE)) as u32;
    let steps = number(cell(case, 2)).clamp(1, u64::from(MOST_STEPS)) as u32;
    let items = items_of(alloc, labels, cell(case, 3))?;
    let count = items.as_slice().len();
    let goal = if count >= 1 && count <= steps as usize {
        Some(items)
    } else {
        None
    };
    Ok(Setup {
        mode: Mode::Ioco,
        patience,
        steps,
        goal,
    })
}

/// Tells a session the events of a cell, up to one that doesn't fit; whether all fit.
fn tell<W: Walk, L: Ledger>(
    alloc: Global,
    labels: &Labels,
    session: &mut Session<'_, W>,
    events: &str,
    steps: &mut Steps<L>,
) -> Result<bool, Fail> {
    for word in events.split_whitespace() {
        let text = bytes_of(alloc, rest_of(word))?;
        let event = event_of(labels, word, text.as_slice());
        if !session.fits(&event) {
            return Ok(false);
        }
        session.event(&event, steps)?;
    }
    Ok(true)
}

/// Tells a session the events of a cell, up to one that is refused as full; for how many members
/// it is refused, or 0.
fn tell_full<W: Walk, L: Ledger>(
    alloc: Global,
    labels: &Labels,
    session: &mut Session<'_, W>,
    events: &str,
    steps: &mut Steps<L>,
) -> Result<u64, Fail> {
    for word in events.split_whitespace() {
        let text = bytes_of(alloc, rest_of(word))?;
        let event = event_of(labels, word, text.as_slice());
        if !session.fits(&event) {
            return Ok(0);
        }
        if let Err(WalkError::Full { reached }) = session.event(&event, steps) {
            return Ok(reached);
        }
    }
    Ok(0)
}

/// What a session waits for, in words.
fn waited(alloc: Global, action: Action) -> Result<String, AllocError> {
    match action {
        Action::Ask => String::from_str(alloc, "ask"),
        Action::Look => String::from_str(alloc, "look"),
        Action::Send(_) => String::from_str(alloc, "send"),
        Action::Hear => String::from_str(alloc, "hear"),
        Action::Done(verdict) => verdict_words(alloc, verdict),
    }
}

/// A verdict in words.
fn verdict_words(alloc: Global, verdict: Verdict) -> Result<String, AllocError> {
    match verdict {
        Verdict::Pass => String::from_str(alloc, "pass"),
        Verdict::Fail(place) => format!(in alloc; "fail {place}"),
        Verdict::Ended => String::from_str(alloc, "ended"),
        Verdict::Stalled => String::from_str(alloc, "stalled"),
        Verdict::Long => String::from_str(alloc, "long"),
    }
}

/// The log of a session, printed.
fn printed<W: Walk>(alloc: Global, session: &Session<'_, W>) -> Result<Vec<u8>, Memory> {
    let log = session.log(alloc, Ending::Broken)?;
    let text = print_log(alloc, &log)?;
    Ok(text.into_vec())
}

/// The log that a case wants: its entries and what follows them are in this cell.
fn wanted(alloc: Global, case: &str, entries: &str) -> Result<Vec<u8>, AllocError> {
    let (patience, steps) = (cell(case, 1), cell(case, 2));
    let front = format!(in alloc; "torx log 1\nmode ioco\npatience {patience}\nsteps {steps}\n")?;
    let mut text = Vec::from_slice(alloc, front.as_bytes())?;
    let rest = bytes_of(alloc, entries)?;
    text.extend_from_slice(rest.as_slice())?;
    Ok(text)
}

/// Appends an act: its letter, what was met, and the text.
fn put_act(text: &mut Vec<u8>, act: &Act) -> Result<(), AllocError> {
    match act {
        Act::Looked(heard, said) => put_met(text, b'l', *heard, said.as_slice()),
        Act::Listened(heard, said) => put_met(text, b'h', *heard, said.as_slice()),
        Act::Gave(said) => {
            text.push(b's')?;
            text.extend_from_slice(said.as_slice())?;
            Ok(())
        }
    }
}

fn put_met(text: &mut Vec<u8>, letter: u8, heard: Heard, said: &[u8]) -> Result<(), AllocError> {
    let mark = match heard {
        Heard::Line => b'=',
        Heard::Idle => b'.',
        Heard::IdleMid => b'~',
        Heard::TooLong => b'>',
        Heard::End => b'<',
    };
    text.push(letter)?;
    text.push(mark)?;
    text.extend_from_slice(said)
}

/// Acts in words.
fn acts_words(alloc: Global, acts: &[Act]) -> Result<Vec<u8>, AllocError> {
    let mut text = Vec::new(alloc);
    for act in acts {
        if !text.is_empty() {
            text.push(b' ')?;
        }
        put_act(&mut text, act)?;
    }
    Ok(text)
}

/// A link that gives the answers of a cell.
fn link_of(alloc: Global, replies: &str) -> Result<MemLink, Memory> {
    let replies = replies_of(alloc, replies)?;
    if !are_said(replies.as_slice()) {
        return Err(Memory);
    }
    let room = Room {
        entries: 100,
        bytes: 10_000,
    };
    let (looks, hears, sends) = (
        Numbers::new(alloc),
        Numbers::new(alloc),
        Numbers::new(alloc),
    );
    MemLink::new(alloc, replies, room, looks, hears, sends)
}

/// The system of a case.
fn system_of(alloc: Global, case: &str) -> Result<OneSystem, Memory>
    ensures { IfOk result IsOneOver }
{
    let mut files = MemFiles::new(contents(alloc, SYSTEMS)?, Numbers::new(alloc));
    match one_system(
        alloc,
        &mut files,
        cell(case, 0),
        Sorting::Prefix,
        Divergence::Refuse,
    ) {
        Ok(one) => Ok(one),
        Err(_) => Err(Memory),
    }
}

/// The tables of the cases.
#[derive(Clone, Copy)]
enum Table {
    Cells,
    Full,
    Drives,
}

/// What a case came to, or is to come to, in two texts.
#[derive(Drop)]
struct Seen {
    first: Vec<u8>,
    second: Vec<u8>,
}

/// What is waited for, or that an event didn't fit.
fn waits_of<W: Walk>(
    alloc: Global,
    session: &Session<'_, W>,
    fits: bool,
) -> Result<Vec<u8>, AllocError> {
    if !fits {
        return Vec::from_slice(alloc, b"unfit");
    }
    let waits = waited(alloc, session.next())?;
    Vec::from_slice(alloc, waits.as_bytes())
}

/// Tells a session the events of a case.
fn cell_in<W: Walk, L: Ledger>(
    alloc: Global,
    labels: &Labels,
    session: &mut Session<'_, W>,
    case: &str,
    steps: &mut Steps<L>,
) -> Result<Seen, Fail> {
    let fits = tell(alloc, labels, session, cell(case, 4), steps)?;
    let first = waits_of(alloc, session, fits)?;
    let second = printed(alloc, session)?;
    Ok(Seen { first, second })
}

/// Tells a session events up to one that is refused as full.
fn full_in<W: Walk, L: Ledger>(
    alloc: Global,
    labels: &Labels,
    session: &mut Session<'_, W>,
    case: &str,
    steps: &mut Steps<L>,
) -> Result<Seen, Fail> {
    let reached = tell_full(alloc, labels, session, cell(case, 5), steps)?;
    let first = number_text(alloc, reached)?;
    let second = waits_of(alloc, session, true)?;
    Ok(Seen { first, second })
}

/// A number as a cell writes it.
fn number_text(alloc: Global, number: u64) -> Result<Vec<u8>, AllocError> {
    let text = format!(in alloc; "{number}")?;
    Vec::from_slice(alloc, text.as_bytes())
}

/// Drives a session. Nothing is promised, so that whoever calls it is proved without a look at what
/// `drive` promises.
fn drive_through<W: Walk, C: Choose, K: Link, L: Ledger>(
    session: &mut Session<'_, W>,
    chooser: &mut C,
    link: &mut K,
    steps: &mut Steps<L>,
)
    requires { session.old.sitting ≡ opening }
{
    let _ = drive(session, chooser, link, steps);
}

/// Drives a session by the script of a case.
fn drive_by_script<W: Walk, K: Link, L: Ledger>(
    alloc: Global,
    labels: &Labels,
    session: &mut Session<'_, W>,
    link: &mut K,
    case: &str,
    steps: &mut Steps<L>,
) -> Result<(), Memory>
    requires { session.old.sitting ≡ opening }
{
    let mut chooser = Scripted::new(script_of(alloc, labels, cell(case, 4))?);
    drive_through(session, &mut chooser, link, steps);
    Ok(())
}

/// Drives a session over a link; the acts of the link.
fn acts_over<W: Walk, L: Ledger>(
    alloc: Global,
    labels: &Labels,
    session: &mut Session<'_, W>,
    link: &mut MemLink,
    case: &str,
    steps: &mut Steps<L>,
) -> Result<Vec<u8>, Memory>
    requires { session.old.sitting ≡ opening }
{
    drive_by_script(alloc, labels, session, link, case, steps)?;
    acts_of(alloc, link)
}

/// The acts of a link in words.
fn acts_of(alloc: Global, link: &MemLink) -> Result<Vec<u8>, Memory> {
    let acts = link.acts(alloc)?;
    Ok(acts_words(alloc, acts.as_slice())?)
}

/// Drives a session over the link of a case.
fn acts_in<W: Walk, L: Ledger>(
    alloc: Global,
    labels: &Labels,
    session: &mut Session<'_, W>,
    case: &str,
    steps: &mut Steps<L>,
) -> Result<Vec<u8>, Memory>
    requires { session.old.sitting ≡ opening }
{
    let mut link = link_of(alloc, cell(case, 5))?;
    acts_over(alloc, labels, session, &mut link, case, steps)
}

/// The acts of the link, and the log of the session.
fn drive_in<W: Walk, L: Ledger>(
    alloc: Global,
    labels: &Labels,
    session: &mut Session<'_, W>,
    case: &str,
    steps: &mut Steps<L>,
) -> Result<Seen, Fail>
    requires { session.old.sitting ≡ opening }
{
    let first = acts_in(alloc, labels, session, case, steps)?;
    let second = printed(alloc, session)?;
    Ok(Seen { first, second })
}

/// What a case comes to over a session.
fn seen_in<W: Walk, L: Ledger>(
    alloc: Global,
    labels: &Labels,
    session: &mut Session<'_, W>,
    table: Table,
    case: &str,
    steps: &mut Steps<L>,
) -> Result<Seen, Fail>
    requires { session.old.sitting ≡ opening }
{
    match table {
        Table::Cells => cell_in(alloc, labels, session, case, steps),
        Table::Full => full_in(alloc, labels, session, case, steps),
        Table::Drives => drive_in(alloc, labels, session, case, steps),
    }
}

/// The most members of the sets of a case.
fn most_of(table: Table, case: &str) -> u64
    ensures { result ≤ 1000 }
{
    match table {
        Table::Full => number(cell(case, 4)).min(1000),
        Table::Cells | Table::Drives => 1000,
    }
}

/// What a case comes to over a walk of its system.
fn seen_over<W: Walk + Drop, L: Ledger>(
    alloc: Global,
    labels: &Labels,
    walk: W,
    table: Table,
    case: &str,
    steps: &mut Steps<L>,
) -> Result<Seen, Fail>
    requires fresh { IsFresh (W.walked walk) }
    requires over { IsSystemOver labels.now (W.walked walk).system }
{
    let setup = setup_of(alloc, labels, case)?;
    let mut session = Session::new(alloc, labels, walk, setup)?;
    // (the session is let go in one place: each takes the prover half a minute)
    seen_in(alloc, labels, &mut session, table, case, steps)
}

/// What a case comes to over a plain walk.
fn seen_by_plain_walk<L: Ledger>(
    alloc: Global,
    one: &OneSystem,
    table: Table,
    case: &str,
    steps: &mut Steps<L>,
) -> Result<Seen, Fail>
    requires { IsOneOver one.now }
{
    let walk = PlainWalk::new(alloc, &one.system, most_of(table, case))?;
    seen_over(alloc, &one.labels, walk, table, case, steps)
}

/// What a case comes to over a lazy walk.
fn seen_by_lazy_walk<L: Ledger>(
    alloc: Global,
    one: &OneSystem,
    table: Table,
    case: &str,
    steps: &mut Steps<L>,
) -> Result<Seen, Fail>
    requires { IsOneOver one.now }
{
    let walk = LazyWalk::new(alloc, &one.system, most_of(table, case))?;
    seen_over(alloc, &one.labels, walk, table, case, steps)
}

/// What a case is to come to.
fn wants(alloc: Global, table: Table, case: &str) -> Result<Seen, AllocError> {
    let (first, second) = match table {
        Table::Cells => (
            bytes_of(alloc, cell(case, 5))?,
            wanted(alloc, case, cell(case, 6))?,
        ),
        Table::Full => (
            bytes_of(alloc, cell(case, 6))?,
            bytes_of(alloc, cell(case, 7))?,
        ),
        Table::Drives => (
            bytes_of(alloc, cell(case, 6))?,
            wanted(alloc, case, cell(case, 7))?,
        ),
    };
    Ok(Seen { first, second })
}

/// Tries a case over both walks, and compares what it came to.
fn try_case<R: Abort, L: Ledger>(
    rt: &R,
    alloc: Global,
    table: Table,
    case: &str,
    steps: &mut Steps<L>,
) -> Result<(), Fail> {
    let one = system_of(alloc, case)?;
    let plain = seen_by_plain_walk(alloc, &one, table, case, steps)?;
    compare(rt, alloc, &plain, table, case)?;
    let lazy = seen_by_lazy_walk(alloc, &one, table, case, steps)?;
    compare(rt, alloc, &lazy, table, case)
}

/// Compares what a case came to.
fn compare<R: Abort>(
    rt: &R,
    alloc: Global,
    seen: &Seen,
    table: Table,
    case: &str,
) -> Result<(), Fail> {
    let want = wants(alloc, table, case)?;
    assert_eq!(rt; seen.first.as_slice(), want.first.as_slice(), "{case}");
    assert_eq!(rt; seen.second.as_slice(), want.second.as_slice(), "{case}");
    Ok(())
}

/// Tries the cases of a table.
fn try_table<R: Abort, L: Ledger>(
    rt: &R,
    alloc: Global,
    table: Table,
    cases: &str,
    steps: &mut Steps<L>,
) -> Result<(), Fail> {
    for case in cases.lines() {
        if is_case(case) {
            try_case(rt, alloc, table, case, steps)?;
        }
    }
    Ok(())
}

/// Tries the cases of all tables.
fn try_all<R: Abort, L: Ledger>(rt: &R, alloc: Global, blank: Blank) -> Result<(), Fail>
    requires name { blank.name ≡ L.name }
    requires parts { blank.parts ≡ L.parts }
    requires some { 0 < blank.parts }
{
    let mut steps = Steps::<L>::new(blank);
    try_table(rt, alloc, Table::Cells, CELLS, &mut steps)?;
    try_table(rt, alloc, Table::Full, FULL, &mut steps)?;
    try_table(rt, alloc, Table::Drives, DRIVES, &mut steps)
}

#[test]
fn sessions(rt: HostRuntime) -> Result<(), Fail> {
    try_all::<_, Brand>(&rt, rt.alloc(), Blank::new(1))
}
