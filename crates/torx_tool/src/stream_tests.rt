//! Sessions over lines of streams in memory: words, what the stream gives, and what went over it.
ghost use Rattle.std.specs.Prelude.{IfOk};
ghost use Rattle.edge_io.specs.Dials.{IsNewLink};
ghost use Rattle.edge_io.specs.Doors.{IsNewStream};
ghost use Rattle.edge_io.specs.StreamsInMemory.{told_of_stream};
ghost use Rattle.line_link.specs.Hearing.{told_over};

use crate::drive_tests::{FILES, after_head, first_of};
use crate::table::{bytes_of, cell, is_case, number, words_of};
use crate::tests::{contents, ran};
use edge_io::{
    Given, Givens, Links, MemDialer, MemFiles, MemSink, MemStream, Numbers, Room, are_given,
};
use line_link::LineLink;
use lts_base::{Listed, Memory};
use std::alloc::{AllocError, Global};
use std::process::Abort;
use std::test::Fail;

/// Words, what the reads of the stream answer, the call that fails, what was written to the stream,
/// the text after the log's head, and the status. `@` stands for 1,024 bytes.
const STREAMS: &str = r#"
drive S.aut a --script s --steps 2 --patience 3 | idle +!tea\n | | ?coin\n | sent ?coin\nheard !tea\nend 2 pass\n | 0
drive S.aut a --script s --steps 2 --patience 3 | idle +!milk\n | | ?coin\n | sent ?coin\nheard !milk\nend 2 fail\n | 1
drive X.aut a --steps 1 --patience 3 | +! idle +x idle +\n | | | heard !x\nend 1 pass\n | 0
drive X.aut a --steps 2 --patience 3 | +!x end | | | left !x\nend 0 ended\n | 2
drive X.aut a --steps 2 --patience 2 | +! idle idle | | | left !\nend 0 stalled\n | 2
drive X.aut a --steps 2 --patience 3 | +@z | | | left @z\nend 0 long\n | 2
# lines of the most bytes, a CR included, and one more
drive X.aut a --steps 1 --patience 3 | +@\n | | | heard @\nend 1 fail\n | 1
drive X.aut a --steps 2 --patience 3 | +@\r\n | | | left @\0d\nend 0 long\n | 2
drive X.aut a --steps 2 --patience 3 | +@z\n | | | left @z\nend 0 long\n | 2
# one CR before LF isn't of the line
drive X.aut a --steps 1 | +!x\r\n | | | heard !x\nend 1 pass\n | 0
drive X.aut a --steps 1 | +!x\r +\n | | | heard !x\nend 1 pass\n | 0
drive X.aut a --steps 1 | +!x\r\r\n | | | heard !x\0d\nend 1 fail\n | 1
drive X.aut a --steps 1 | +!\rx\n | | | heard !\0dx\nend 1 fail\n | 1
# lines that come together are heard one after the other
drive F.aut a --steps 3 | +!x\n!x\n!x\n | | | heard !x\nheard !x\nheard !x\nend 3 pass\n | 0
drive F.aut a --steps 2 | +!x\n! +x\n | | | heard !x\nheard !x\nend 2 pass\n | 0
# empty lines, bytes that aren't UTF-8
drive X.aut a --steps 1 | +\n | | | heard \nend 1 fail\n | 1
drive X.aut a --steps 1 | +\ff\fe\n | | | heard \ff\fe\nend 1 fail\n | 1
# the other side ends: at once, in a line, after a line, and where an input would go out
drive X.aut a --steps 1 | end | | | end 0 ended\n | 2
drive F.aut a --steps 2 | +!x\n end | | | heard !x\nend 1 ended\n | 2
drive F.aut a --steps 2 | +!x\n! end | | | heard !x\nleft !\nend 1 ended\n | 2
drive S.aut a --script s --steps 2 | end | | | end 0 ended\n | 2
# quiescence is as many idle reads in a row as the patience, none of which met bytes of a line
drive E.aut a --steps 1 --patience 2 | idle idle | | | delta\nend 1 pass\n | 0
drive E.aut a --steps 1 --patience 2 | idle +z idle idle | | | left z\nend 0 stalled\n | 2
# a line that crosses an input, which isn't sent
drive S.aut a --script s --steps 2 | +!tea\n | | | heard !tea\nend 1 fail\n | 1
# a call of the stream fails
drive S.aut a --script s --steps 2 --patience 3 | idle +!tea\n | write | | end 0 broken\n | 7
drive S.aut a --script s --steps 2 --patience 3 | idle +!tea\n | read | | end 0 broken\n | 7
drive S.aut a --script s --steps 2 --patience 3 | idle +!tea\n | again | ?coin\n | sent ?coin\nend 1 broken\n | 7
"#;

/// The bytes of a cell, with what `@` stands for.
fn expanded(alloc: Global, cell: &str) -> Result<Vec<u8>, AllocError> {
    let mut bytes = Vec::new(alloc);
    for byte in bytes_of(alloc, cell)? {
        if byte == b'@' {
            for _ in 0..1024 {
                bytes.push(b'z')?;
            }
        } else {
            bytes.push(byte)?;
        }
    }
    Ok(bytes)
}

/// What the reads of a cell answer.
fn givens(alloc: Global, cell: &str) -> Result<Givens, Memory> {
    let mut answers = Listed::new(alloc);
    for word in cell.split_whitespace() {
        let given = match word.strip_prefix('+') {
            Some(text) => Given::Bytes(Listed::from_vec(expanded(alloc, text)?)),
            None => {
                if word == "end" {
                    Given::End
                } else {
                    Given::Idle
                }
            }
        };
        answers.push(given)?;
    }
    Ok(answers)
}

/// The reads that are to fail: the first, where the cell says `read`, the second, where it says
/// `again`.
fn failing_reads(alloc: Global, failing: &str) -> Result<Numbers, Memory> {
    if failing == "again" {
        let mut numbers = Numbers::new(alloc);
        numbers.push(2)?;
        return Ok(numbers);
    }
    first_of(alloc, failing, "read")
}

/// The stream of a case.
fn stream_of(alloc: Global, case: &str, room: Room) -> Result<MemStream, Memory>
    ensures { IfOk result (λ stream. IsNewStream (told_of_stream stream)) }
{
    let answers = givens(alloc, cell(case, 1))?;
    if !are_given(answers.as_slice()) {
        return Err(Memory);
    }
    let reads = failing_reads(alloc, cell(case, 2))?;
    let writes = first_of(alloc, cell(case, 2), "write")?;
    MemStream::new(alloc, answers, room, 1000, reads, writes)
}

/// The room of the stream and of the dialer.
const ROOM: Room = Room {
    entries: 100,
    bytes: 10_000,
};

/// A link over the stream of a case.
fn link_over(alloc: Global, case: &str) -> Result<LineLink<MemStream>, Memory>
    ensures { IfOk result (λ link. IsNewLink (told_over told_of_stream link)) }
{
    let stream = stream_of(alloc, case, ROOM)?;
    match LineLink::new(alloc, stream) {
        Ok(link) => Ok(link),
        Err(_) => Err(Memory),
    }
}

/// The dialer of a case.
fn dialer_over(alloc: Global, case: &str) -> Result<MemDialer<LineLink<MemStream>>, Memory> {
    let mut links = Links::new(alloc);
    links.push(link_over(alloc, case)?)?;
    MemDialer::new(alloc, links, ROOM, Numbers::new(alloc))
}

/// What a case came to: the status, what was printed, and what was written to the stream.
#[derive(Drop)]
struct Heard {
    code: u8,
    printed: Vec<u8>,
    sent: Vec<u8>,
}

/// What was made of a session.
fn heard_of(
    alloc: Global,
    code: u8,
    printed: &[u8],
    ended: &[LineLink<MemStream>],
) -> Result<Heard, Memory> {
    let printed = Vec::from_slice(alloc, after_head(printed))?;
    let sent = match ended {
        [link, ..] => Vec::from_slice(alloc, link.stream().written())?,
        [] => Vec::new(alloc),
    };
    Ok(Heard {
        code,
        printed,
        sent,
    })
}

/// Runs the session of a case.
fn run_over(alloc: Global, case: &str) -> Result<Heard, Memory> {
    let mut dialer = dialer_over(alloc, case)?;
    let mut files = MemFiles::new(contents(alloc, FILES)?, Numbers::new(alloc));
    let mut out = MemSink::new(alloc, 10_000, 10_000, Numbers::new(alloc))?;
    let words = words_of(alloc, cell(case, 0))?;
    let status = ran(alloc, &words, &mut files, &mut out, &mut dialer);
    heard_of(alloc, status.code(), out.written(), dialer.ended())
}

/// Runs the session of a case, and compares what it came to.
fn try_over<R: Abort>(rt: &R, alloc: Global, case: &str) -> Result<(), Fail> {
    let heard = run_over(alloc, case)?;
    let want = expanded(alloc, cell(case, 4))?;
    assert_eq!(rt; heard.printed.as_slice(), want.as_slice(), "{case}");
    assert_eq!(rt; u64::from(heard.code), number(cell(case, 5)), "{case}");
    let want = bytes_of(alloc, cell(case, 3))?;
    assert_eq!(rt; heard.sent.as_slice(), want.as_slice(), "{case}");
    Ok(())
}

#[test]
fn sessions_over_lines(rt: HostRuntime) -> Result<(), Fail> {
    let alloc = rt.alloc();
    for case in STREAMS.lines() {
        if is_case(case) {
            try_over(&rt, alloc, case)?;
        }
    }
    Ok(())
}
