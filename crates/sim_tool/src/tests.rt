//! Worked cases: words, files and streams in memory, and what is printed and sent for them.
ghost use Rattle.std.specs.Prelude.{◌≤◌, IfOk};
ghost use Rattle.edge_io.specs.Doors.{IsNewStream};
ghost use Rattle.edge_io.specs.DoorsInMemory.{AreNewStreams};
ghost use Rattle.edge_io.specs.StreamsInMemory.{told_of_stream};

use edge_io::{
    Contents, Given, Givens, MemDoor, MemFiles, MemSink, MemStream, NamedText, Numbers, Room,
    Streams, are_given,
};
use lts_base::{Listed, Memory, Text};
use sim_serve::serve;
use std::alloc::{AllocError, Global};
use std::process::Abort;
use std::test::Fail;

/// The files: name and content. `/` stands for LF.
const FILES: &str = r#"
RI.aut | des (0,3,2)/(0,"?a",1)/(1,"!x",0)/(1,"?a",1)/
N.aut | des (0,4,2)/(0,"?a",1)/(1,"?a",1)/(1,"!x",0)/(1,"!y",0)/
S.aut | des (0,4,3)/(0,"?a",1)/(0,"tau",2)/(2,"?a",1)/(1,"?a",1)/
F.aut | des (0,1,1)/(0,"!x",0)/
D.aut | des (0,1,1)/(0,"tau",0)/
Q.aut | des (0,1,2)/(0,"?coin",1)/
B.aut | des (0,1,2)/(0,"?a",2)/
C.aut | des (0,4,3)/(0,"?a",1)/
Z.aut |
G.aut | des (0,1,2)/(0,"coin",1)/
J.aut | des (0,1,2)/(0,"delta",1)/
R.graphml | <graphml><graph>
"#;

/// Words, the streams with the answers of their reads, the calls that fail, what was sent over each
/// stream, the text, and the status. Streams are parted by `;`. `+` begins bytes, in which `/` stands
/// for LF and `@` for 1,024 bytes. A call that fails is named with its number.
const CASES: &str = r#"
RI.aut a 0 1 | +?a/ idle end | | !x/ | listening/session 1 inputs=1 outputs=1 end/ | 0
RI.aut a 0 1 | +?b/ | | | listening/session 1 inputs=0 outputs=0 bad-input/ | 0
# the door refuses, and a call of the stream fails
RI.aut a 0 1 | +?a/ idle end | bind1 | | | 7
RI.aut a 0 1 | +?a/ idle end | accept1 | | listening/ | 7
RI.aut a 0 1 | +?a/ idle end | read1 | | listening/session 1 inputs=0 outputs=0 fault/ | 0
RI.aut a 0 1 | +?a/ idle end | read2 | | listening/session 1 inputs=1 outputs=0 fault/ | 0
RI.aut a 0 1 | +?a/ idle end | write1 | | listening/session 1 inputs=1 outputs=0 fault/ | 0
RI.aut a 0 1 | +?a/ idle end | write2 | !x | listening/session 1 inputs=1 outputs=0 fault/ | 0
RI.aut a 0 2 | end;end | accept2 | | listening/session 1 inputs=0 outputs=0 end/ | 7
RI.aut a 0 2 | end | | | listening/session 1 inputs=0 outputs=0 end/ | 7
# lines: in pieces, several at once, unfinished, empty, an output, and too long
RI.aut a 0 1 | +? idle +a/ idle end | | !x/ | listening/session 1 inputs=1 outputs=1 end/ | 0
RI.aut a 0 1 | +?a/?a/ idle idle end | | !x/ | listening/session 1 inputs=2 outputs=1 end/ | 0
RI.aut a 0 1 | +?a/? idle end | | !x/ | listening/session 1 inputs=1 outputs=1 end/ | 0
RI.aut a 0 1 | +?a\ +/ idle end | | !x/ | listening/session 1 inputs=1 outputs=1 end/ | 0
RI.aut a 0 1 | +/ | | | listening/session 1 inputs=0 outputs=0 bad-input/ | 0
RI.aut a 0 1 | +!x/ | | | listening/session 1 inputs=0 outputs=0 bad-input/ | 0
RI.aut a 0 1 | +@z | | | listening/session 1 inputs=0 outputs=0 long/ | 0
# a quiet system says nothing, and one that is never quiet says something at each tick
RI.aut a 0 1 | idle idle end | | | listening/session 1 inputs=0 outputs=0 end/ | 0
S.aut a 0 1 | idle +?a/ idle end | | | listening/session 1 inputs=1 outputs=0 end/ | 0
F.aut a 0 1 | idle idle idle end | | !x/!x/!x/ | listening/session 1 inputs=0 outputs=3 end/ | 0
# each session begins at the start of the system
RI.aut a 0 3 | +?a/ end;idle end;+?a/ idle +?c/ | | ;;!x/ | listening/session 1 inputs=1 outputs=0 end/session 2 inputs=0 outputs=0 end/session 3 inputs=1 outputs=1 bad-input/ | 0
# words
| | | | usage words/ | 3
RI.aut a 0 | | | | usage words/ | 3
RI.aut a 0 1 1 | | | | usage words/ | 3
'' a 0 1 | | | | usage words/ | 3
RI.aut '' 0 1 | | | | usage words/ | 3
RI.aut a x 1 | | | | usage words/ | 3
RI.aut a -1 1 | | | | usage words/ | 3
RI.aut a 18446744073709551616 1 | | | | usage words/ | 3
RI.aut a 000000000000000000000 1 | | | | usage words/ | 3
RI.aut a 0 0 | | | | usage words/ | 3
RI.aut a 0 65 | | | | usage words/ | 3
RI.aut a 0 x | | | | usage words/ | 3
RI.aut a 0 '' | | | | usage words/ | 3
RI.aut a 00 01 | end | | | listening/session 1 inputs=0 outputs=0 end/ | 0
RI.aut a 18446744073709551615 1 | end | | | listening/session 1 inputs=0 outputs=0 end/ | 0
# the file
none a 0 1 | end | | | fault none/ | 5
RI.aut a 0 1 | end | file1 | | fault RI.aut/ | 5
B.aut a 0 1 | end | | | bad B.aut state 2/ | 4
C.aut a 0 1 | end | | | bad C.aut count declared=4 found=1/ | 4
Z.aut a 0 1 | end | | | bad Z.aut header/ | 4
R.graphml a 0 1 | end | | | bad R.graphml malformed 16/ | 4
G.aut a 0 1 | end | | | labels unsorted coin/ | 4
J.aut a 0 1 | end | | | labels reserved delta/ | 4
D.aut a 0 1 | end | | | divergent D.aut 0/ | 4
Q.aut a 0 1 | end | | | not-enabled Q.aut state=1 input=?coin/ | 4
# the output
RI.aut a 0 2 | end;end | sink1 | | | 6
RI.aut a 0 2 | end;end | sink2 | | listening/ | 6
RI.aut a 0 2 | end;end | sink3 | ; | listening/session 1 inputs=0 outputs=0 end/ | 6
Q.aut a 0 1 | end | sink1 | | | 6
RI.aut | end | sink1 | | | 6
"#;

/// The room of a door and of its streams.
const ROOM: Room = Room {
    entries: 100,
    bytes: 10_000,
};

/// Cell number `number` of a case, counted from 0, without the blanks beside its bars.
fn cell(case: &str, number: usize) -> &str {
    case.split('|').nth(number).unwrap_or("").trim()
}

/// Whether a line of a table is a case.
fn is_case(line: &str) -> bool {
    !line.is_empty() && !line.starts_with('#')
}

/// The bytes that a text stands for.
fn bytes_of(alloc: Global, text: &str) -> Result<Vec<u8>, AllocError> {
    let mut bytes = Vec::new(alloc);
    for byte in text.as_bytes() {
        match *byte {
            b'/' => bytes.push(b'\n')?,
            b'\\' => bytes.push(b'\r')?,
            b'@' => bytes.resize(bytes.len() + 1024, b'z')?,
            byte => bytes.push(byte)?,
        }
    }
    Ok(bytes)
}

/// The words of a cell; `''` is the empty word.
fn words_of(alloc: Global, cell: &str) -> Result<Vec<String>, AllocError> {
    let mut words = Vec::new(alloc);
    for word in cell.split_whitespace() {
        let word = if word == "''" { "" } else { word };
        words.push(String::from_str(alloc, word)?)?;
    }
    Ok(words)
}

/// The files of the table.
pub fn contents(alloc: Global) -> Result<Contents, Memory> {
    let mut contents = Listed::new(alloc);
    for case in FILES.lines() {
        if is_case(case) {
            contents.push(NamedText {
                name: Text::from_vec(bytes_of(alloc, cell(case, 0))?),
                content: Text::from_vec(bytes_of(alloc, cell(case, 1))?),
            })?;
        }
    }
    Ok(contents)
}

/// The number of the call of this name that is to fail, if the cell names one.
fn failing(alloc: Global, cell: &str, name: &str) -> Result<Numbers, Memory> {
    let mut numbers = Numbers::new(alloc);
    if let Some(digits) = cell.strip_prefix(name)
        && let Ok(number) = digits.parse::<u64>()
    {
        numbers.push(number)?;
    }
    Ok(numbers)
}

/// What the reads of a stream answer.
fn givens(alloc: Global, text: &str) -> Result<Givens, Memory> {
    let mut givens = Givens::new(alloc);
    for word in text.split_whitespace() {
        let given = match word.strip_prefix('+') {
            Some(bytes) => Given::Bytes(Text::from_vec(bytes_of(alloc, bytes)?)),
            None => {
                if word == "end" {
                    Given::End
                } else {
                    Given::Idle
                }
            }
        };
        givens.push(given)?;
    }
    Ok(givens)
}

/// A stream that gives these answers.
fn stream_of(alloc: Global, text: &str, fails: &str) -> Result<MemStream, Memory>
    ensures { IfOk result (λ stream. IsNewStream (told_of_stream stream)) }
{
    let answers = givens(alloc, text)?;
    if !are_given(answers.as_slice()) {
        return Err(Memory);
    }
    let reads = failing(alloc, fails, "read")?;
    let writes = failing(alloc, fails, "write")?;
    MemStream::new(alloc, answers, ROOM, 1000, reads, writes)
}

/// The streams of a cell.
fn streams_of(alloc: Global, cell: &str, fails: &str) -> Result<Streams, Memory>
    ensures { IfOk result AreNewStreams }
{
    let mut streams = Streams::new(alloc);
    if cell.is_empty() {
        return Ok(streams);
    }
    'streams: for text in cell.split(';') {
        let stream = stream_of(alloc, text, fails)?;
        streams.push(stream)?;
    }
    Ok(streams)
}

/// A door of these streams.
fn door_of(alloc: Global, cell: &str, fails: &str) -> Result<MemDoor, Memory> {
    let streams = streams_of(alloc, cell, fails)?;
    let binds = failing(alloc, fails, "bind")?;
    let accepts = failing(alloc, fails, "accept")?;
    MemDoor::new(alloc, streams, ROOM, binds, accepts)
}

/// What came of words: the status, what was printed, and what was sent over each stream, in the
/// order in which they were closed, each but the first after `;`.
#[derive(Drop)]
struct Seen {
    code: u8,
    printed: Vec<u8>,
    sent: Vec<u8>,
    closed: usize,
}

/// What was sent over the streams.
fn sent_over(alloc: Global, closed: &[MemStream]) -> Result<Vec<u8>, AllocError> {
    let mut sent = Vec::new(alloc);
    for (place, stream) in closed.iter().enumerate() {
        if place > 0 {
            sent.push(b';')?;
        }
        sent.extend_from_slice(stream.written())?;
    }
    Ok(sent)
}

/// Serves, with an output that takes so many bytes at a time.
fn run_words(
    alloc: Global,
    words: &str,
    streams: &str,
    fails: &str,
    most: u32,
) -> Result<Seen, Memory>
    requires { 1 ≤ most }
{
    let mut files = MemFiles::new(contents(alloc)?, failing(alloc, fails, "file")?);
    let mut out = MemSink::new(alloc, 10_000, most, failing(alloc, fails, "sink")?)?;
    let mut door = door_of(alloc, streams, fails)?;
    let words = words_of(alloc, words)?;
    let status = serve(alloc, &words, &mut files, &mut out, &mut door);
    Ok(Seen {
        code: status.code(),
        printed: Vec::from_slice(alloc, out.written())?,
        sent: sent_over(alloc, door.closed())?,
        closed: door.closed().len(),
    })
}

/// Serves for a case, and compares what came of it.
fn try_case<R: Abort>(rt: &R, alloc: Global, case: &str) -> Result<(), Fail> {
    let seen = run_words(alloc, cell(case, 0), cell(case, 1), cell(case, 2), 1000)?;
    let want = bytes_of(alloc, cell(case, 4))?;
    assert_eq!(rt; seen.printed.as_slice(), want.as_slice(), "{case}");
    let want = bytes_of(alloc, cell(case, 3))?;
    assert_eq!(rt; seen.sent.as_slice(), want.as_slice(), "{case}");
    let want = cell(case, 5).parse::<u64>().unwrap_or(100);
    assert_eq!(rt; u64::from(seen.code), want, "{case}");
    Ok(())
}

#[test]
fn cases(rt: HostRuntime) -> Result<(), Fail> {
    let alloc = rt.alloc();
    for case in CASES.lines() {
        if is_case(case) {
            try_case(&rt, alloc, case)?;
        }
    }
    Ok(())
}

/// A session whose outputs the generator draws: what it is given, and how often.
const DRAWN: &str =
    "+?a/ idle +?a/ idle +?a/ idle +?a/ idle +?a/ idle +?a/ idle +?a/ idle +?a/ idle end";

/// What a simulation says in a session by the generator of this number.
fn said(alloc: Global, number: u64) -> Result<Vec<u8>, Memory> {
    let words = format!(in alloc; "N.aut a {number} 1")?;
    Ok(run_words(alloc, &words, DRAWN, "", 1000)?.sent)
}

/// Whether the sessions that begin with this number say what those of one session each say.
fn is_each_by_its_own(alloc: Global, number: u64) -> Result<bool, Memory> {
    let words = format!(in alloc; "N.aut a {number} 3")?;
    let streams = format!(in alloc; "{DRAWN};{DRAWN};{DRAWN}")?;
    let all = run_words(alloc, &words, &streams, "", 1000)?.sent;
    let mut pieces = all.split(|byte| *byte == b';');
    for place in 0..3 {
        let alone = said(alloc, number.wrapping_add(place))?;
        if pieces.next() != Some(alone.as_slice()) {
            return Ok(false);
        }
    }
    Ok(pieces.next().is_none())
}

#[test]
fn generators(rt: HostRuntime) -> Result<(), Fail> {
    let alloc = rt.alloc();
    for number in [0, 1, 41, u64::MAX, u64::MAX - 1] {
        assert!(rt; is_each_by_its_own(alloc, number)?, "{number}");
    }
    // what the generators draw differs
    assert!(rt; said(alloc, 0)? != said(alloc, 1)?);
    assert!(rt; said(alloc, 1)? != said(alloc, 2)?);
    Ok(())
}

/// How many lines are whole.
fn whole_lines(text: &[u8]) -> usize {
    text.iter().filter(|byte| **byte == b'\n').count()
}

/// A write that fails ends it: a front is written, and no stream comes in after it.
#[test]
fn writes_fail(rt: HostRuntime) -> Result<(), Fail> {
    let alloc = rt.alloc();
    let words = "RI.aut a 7 3";
    let streams = "+?a/ idle end;end;+?a/?a/ end";
    let whole = run_words(alloc, words, streams, "", 1)?;
    assert_eq!(rt; whole.code, 0);
    assert_eq!(rt; whole.closed, 3);
    for number in 1..=whole.printed.len() {
        let fails = format!(in alloc; "sink{number}")?;
        let cut = run_words(alloc, words, streams, &fails, 1)?;
        assert_eq!(rt; cut.code, 6);
        assert_eq!(rt; cut.printed.len() + 1, number);
        assert!(rt; whole.printed.starts_with(&cut.printed));
        assert_eq!(rt; cut.closed, whole_lines(&cut.printed));
    }
    let past = format!(in alloc; "sink{}", whole.printed.len() + 1)?;
    assert_eq!(rt; run_words(alloc, words, streams, &past, 1)?.code, 0);
    Ok(())
}

/// Each call of the files fails in turn.
#[test]
fn reads_fail(rt: HostRuntime) -> Result<(), Fail> {
    let alloc = rt.alloc();
    let mut last = 0;
    for number in 1..10 {
        let fails = format!(in alloc; "file{number}")?;
        let seen = run_words(alloc, "RI.aut a 0 1", "end", &fails, 1000)?;
        if seen.code == 0 {
            break;
        }
        assert_eq!(rt; seen.code, 5);
        assert_eq!(rt; seen.printed.as_slice(), b"fault RI.aut\n".as_slice());
        assert_eq!(rt; seen.closed, 0);
        last = number;
    }
    assert_eq!(rt; last, 2);
    Ok(())
}
