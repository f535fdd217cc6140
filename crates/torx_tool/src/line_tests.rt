//! Lines over streams in memory, a door in memory, and one connection by TCP.
ghost use Rattle.std.specs.Prelude.{IfOk};
ghost use Rattle.edge_io.specs.Doors.{IsNewStream};
ghost use Rattle.edge_io.specs.Dials.{IsNewLink};
ghost use Rattle.edge_io.specs.StreamsInMemory.{told_of_stream};
ghost use Rattle.line_link.specs.Hearing.{told_over};

use crate::table::cell;
use edge_io::{
    Dialer, Door, Failed, Given, Givens, Got, Heard, Link, Links, MemDialer, MemDoor, MemStream,
    Numbers, Room, Stream, Streams, TcpDoor, are_given,
};
use line_link::{LineLink, TcpDialer};
use lts_base::{Memory, Text};
use std::alloc::{AllocError, Global};
use std::process::Abort;
use std::test::Fail;

/// Answers of the stream, the reads and the writes that fail, what is asked of the link and met, and
/// what was written; a case ends with `;`. Of the answers `=` begins bytes, `.` is an idle read and
/// `<` the end. `l` is a look, `h` a hearing and `s` a text that is sent; of what is met `=` begins a
/// line, `~` the bytes of an unfinished one, `>` those of one that is too long, and `<` the bytes
/// before the end; `.` is an idle tick and `!` a call that failed.
const CALLS: &str = "\
. =!tea\n | | | l. s?coin h=!tea h< h< | ?coin\n;\
=! . =x . =\n < | | | h~! h~!x h=!x h< | ;\
=!x < | | | h<!x l<!x s?coin h<!x | ?coin\n;\
=! . . =\n | | | h~! l~! h=! h< | ;\
=!a\n!b\n!c < | | | h=!a l=!b h<!c | ;\
=!a\r\n!b\r =\n | | | h=!a h=!b h< | ;\
=\n\r\n\r\r\n!\rx\n | | | h= h= h=\r h=!\rx h< | ;\
=\r . =\n . < =! | | | h~\r h= h. h< h< | ;\
< =!a\n | | | h< h< | ;\
. | | | s s?coin h. | \n?coin\n;\
=!a\n!b\n | | | h=!a s?coin h=!b | ?coin\n;\
=! =x\n . | 1 | | h! h=!x h. h< | ;\
=! =x\n . | 2 | | h! h=!x h. h< | ;\
=! . =x\n | 2 3 | | h! h! h~! h=!x | ;\
=!a\n!b . | 2 | | h=!a h! h~!b | ;\
=!a\n | | 1 | s! s?coin h=!a | ?coin\n;\
=!a\n | | 2 | s! s?coin h=!a | ?tea?coin\n;\
=!a\n | | 3 | s?tea s! h=!a | ?tea\n";

/// Texts that are cut at each two places, and the hearings that meet their lines.
const TEXTS: &str = "\
!a\n!bc\r\n\n | h=!a h=!bc h= h<;\
\r\r\n\r!\n\r\n | h=\r h=\r! h= h<;\
!té\n!m | h=!té h<!m;\
!mi\r | h<!mi\r";

/// So many bytes, what comes after them, and what is met.
const LONG: &str = "\
1023 \n =;\
1024 \n =;\
1025 \n >;\
1026 \n >;\
1025 - >;\
1023 \r\n =;\
1024 \r\n >;\
1023 \r! >;\
1024 \r >;\
3072 - >";

/// Sizes of the pieces in which a long text comes.
const SIZES: &str = "1 7 1023 1024 1025 3072 10000";

/// Addresses at which nothing can be dialled.
const NOWHERE: &str = ";localhost;localhost:;localhost:x;localhost:65536;::1:1;no host:1";

/// The room of the streams.
const ROOM: Room = Room {
    entries: 8_192,
    bytes: 16_384,
};

/// A stream that gives these answers.
fn stream_of(
    givens: Givens,
    fail_reads: Numbers,
    fail_writes: Numbers,
    alloc: Global,
) -> Result<MemStream, Fail>
    ensures { IfOk result (λ stream. IsNewStream (told_of_stream stream)) }
{
    if !are_given(givens.as_slice()) {
        return Err(Fail::new("no bytes"));
    }
    let stream = MemStream::new(alloc, givens, ROOM, 100, fail_reads, fail_writes)?;
    Ok(stream)
}

/// The answers of a cell.
fn givens_of(alloc: Global, cell: &str) -> Result<Givens, Memory> {
    let mut givens = Givens::new(alloc);
    for word in cell.split(' ') {
        match word.as_bytes() {
            [b'=', bytes @ ..] => push_bytes(alloc, &mut givens, bytes)?,
            [b'.', ..] => givens.push(Given::Idle)?,
            [b'<', ..] => givens.push(Given::End)?,
            _ => {}
        }
    }
    Ok(givens)
}

fn push_bytes(alloc: Global, givens: &mut Givens, bytes: &[u8]) -> Result<(), Memory> {
    if bytes.is_empty() {
        return Ok(());
    }
    givens.push(Given::Bytes(Text::from_vec(Vec::from_slice(alloc, bytes)?)))
}

/// The numbers of a cell.
fn numbers_of(alloc: Global, cell: &str) -> Result<Numbers, Memory> {
    let mut numbers = Numbers::new(alloc);
    for word in cell.split(' ') {
        if let Ok(number) = word.parse::<u64>() {
            numbers.push(number)?;
        }
    }
    Ok(numbers)
}

/// The mark of what was met.
fn mark_of(met: Result<Heard, Failed>) -> u8 {
    match met {
        Ok(Heard::Line) => b'=',
        Ok(Heard::Idle) => b'.',
        Ok(Heard::IdleMid) => b'~',
        Ok(Heard::TooLong) => b'>',
        Ok(Heard::End) => b'<',
        Err(Failed) => b'!',
    }
}

/// Fails a case.
fn holds<R: Abort>(rt: &R, is: bool, case: &str) {
    assert!(rt; is, "{case}");
}

/// Whether this was met, with this text: a mark and its bytes.
fn is_met<K: Link>(link: &K, met: Result<Heard, Failed>, want: &[u8]) -> bool {
    want.first() == Some(&mark_of(met)) && want.get(1..) == Some(link.text())
}

/// Makes the call of a word; whether it met what the word says.
fn call<K: Link>(link: &mut K, word: &[u8]) -> bool {
    match word {
        [b'l', want @ ..] => {
            let met = link.look();
            is_met(link, met, want)
        }
        [b'h', want @ ..] => {
            let met = link.hear();
            is_met(link, met, want)
        }
        [b's', b'!'] => link.send(b"?tea").is_err() && link.text().is_empty(),
        [b's', text @ ..] => link.send(text).is_ok() && link.text().is_empty(),
        _ => word.is_empty(),
    }
}

/// Makes the calls of a cell; whether each met what it says.
fn calls_of<K: Link>(link: &mut K, cell: &str) -> bool {
    for word in cell.split(' ') {
        if !call(link, word.as_bytes()) {
            return false;
        }
    }
    true
}

#[test]
fn calls(rt: HostRuntime) -> Result<(), Fail> {
    calls_in(&rt, rt.alloc(), CALLS)
}

fn calls_in<R: Abort>(rt: &R, alloc: Global, table: &str) -> Result<(), Fail> {
    for case in table.split(';') {
        let fail_reads = numbers_of(alloc, cell(case, 1))?;
        let fail_writes = numbers_of(alloc, cell(case, 2))?;
        let givens = givens_of(alloc, cell(case, 0))?;
        let mut link = LineLink::new(alloc, stream_of(givens, fail_reads, fail_writes, alloc)?)?;
        holds(rt, calls_of(&mut link, cell(case, 3)), case);
        let written = link.stream().written();
        holds(rt, written == cell(case, 4).as_bytes(), case);
    }
    Ok(())
}

/// A stream that gives these pieces.
fn pieces_of(alloc: Global, pieces: &[&[u8]]) -> Result<MemStream, Fail>
    ensures { IfOk result (λ stream. IsNewStream (told_of_stream stream)) }
{
    let mut givens = Givens::new(alloc);
    for piece in pieces {
        push_bytes(alloc, &mut givens, piece)?;
    }
    stream_of(givens, Numbers::new(alloc), Numbers::new(alloc), alloc)
}

/// A link whose stream gives these pieces.
fn link_of(alloc: Global, pieces: &[&[u8]]) -> Result<LineLink<MemStream>, Fail>
    ensures { IfOk result (λ link. IsNewLink (told_over told_of_stream link)) }
{
    Ok(LineLink::new(alloc, pieces_of(alloc, pieces)?)?)
}

#[test]
fn cuts(rt: HostRuntime) -> Result<(), Fail> {
    cuts_in(&rt, rt.alloc(), TEXTS)
}

fn cuts_in<R: Abort>(rt: &R, alloc: Global, table: &str) -> Result<(), Fail> {
    for case in table.split(';') {
        let text = cell(case, 0).as_bytes();
        for second in 0..=text.len() {
            let (front, last) = text.split_at(second);
            for first in 0..=front.len() {
                let (one, two) = front.split_at(first);
                let mut link = link_of(alloc, &[one, two, last])?;
                holds(rt, calls_of(&mut link, cell(case, 1)), case);
            }
        }
    }
    Ok(())
}

/// So many bytes and the end after them.
fn long_text(alloc: Global, count: usize, end: &str) -> Result<Vec<u8>, AllocError> {
    let mut text = Vec::new(alloc);
    text.resize(count, b'z')?;
    if end != "-" {
        text.extend_from_slice(end.as_bytes())?;
    }
    Ok(text)
}

/// Whether this is met of a text that comes in pieces of this size, twice where it isn't a line.
fn is_heard(alloc: Global, text: &[u8], size: usize, want: &[u8]) -> Result<bool, Fail> {
    let mut givens = Givens::new(alloc);
    for piece in text.chunks(size.max(1)) {
        push_bytes(alloc, &mut givens, piece)?;
    }
    let stream = stream_of(givens, Numbers::new(alloc), Numbers::new(alloc), alloc)?;
    let mut link = LineLink::new(alloc, stream)?;
    let met = link.hear();
    let is_first = is_met(&link, met, want);
    let met = link.look();
    let then = if want.starts_with(b"=") { b"<" } else { want };
    Ok(is_first && is_met(&link, met, then))
}

/// What is to be met of a text: its first bytes, after the mark.
fn wanted(alloc: Global, mark: &str, text: &[u8], count: usize) -> Result<Vec<u8>, AllocError> {
    let mut want = Vec::from_slice(alloc, mark.as_bytes())?;
    let most = if mark == ">" { 1_025 } else { count };
    want.extend_from_slice(text.get(..most).unwrap_or(text))?;
    Ok(want)
}

#[test]
fn long_lines(rt: HostRuntime) -> Result<(), Fail> {
    long_lines_in(&rt, rt.alloc(), LONG, SIZES)
}

fn long_lines_in<R: Abort>(rt: &R, alloc: Global, table: &str, sizes: &str) -> Result<(), Fail> {
    for case in table.split(';') {
        let mut words = case.split(' ');
        let count = words.next().unwrap_or("").parse::<usize>().unwrap_or(0);
        let text = long_text(alloc, count, words.next().unwrap_or(""))?;
        let want = wanted(alloc, words.next().unwrap_or(""), &text, count)?;
        for size in sizes.split(' ') {
            let size = size.parse::<usize>().unwrap_or(0);
            holds(rt, is_heard(alloc, &text, size, &want)?, case);
        }
    }
    Ok(())
}

#[test]
fn other_bytes(rt: HostRuntime) -> Result<(), Fail> {
    let mut link = link_of(rt.alloc(), &[b"\xff\x00", b"\xc3\n\x80"])?;
    holds(&rt, call(&mut link, b"h=\xff\x00\xc3"), "line");
    holds(&rt, call(&mut link, b"h<\x80"), "end");
    Ok(())
}

#[test]
fn dials(rt: HostRuntime) -> Result<(), Fail> {
    let alloc = rt.alloc();
    let mut links = Links::new(alloc);
    links.push(link_of(alloc, &[b"!tea\n"])?)?;
    let mut dialer = MemDialer::new(alloc, links, ROOM, Numbers::new(alloc))?;
    let mut link = dialer.dial("a", 1).or(Err("no link"))?;
    holds(&rt, calls_of(&mut link, "s?coin h=!tea h<"), "calls");
    dialer.hang_up(link);
    match dialer.ended() {
        [link] => holds(
            &rt,
            link.stream().written() == b"?coin\n".as_slice(),
            "written",
        ),
        _ => return Err(Fail::new("not hung up")),
    }
    Ok(())
}

#[test]
fn door(rt: HostRuntime) -> Result<(), Fail> {
    let alloc = rt.alloc();
    let mut streams = Streams::new(alloc);
    streams.push(pieces_of(alloc, &[b"!b\n"])?)?;
    let mut door = MemDoor::new(
        alloc,
        streams,
        ROOM,
        numbers_of(alloc, "1")?,
        Numbers::new(alloc),
    )?;
    holds(&rt, door.bind("a").is_err(), "first bind");
    door.bind("a").or(Err("not bound"))?;
    let mut link = LineLink::new(alloc, door.accept(1).or(Err("no stream"))?)?;
    holds(&rt, calls_of(&mut link, "h=!b s?coin"), "calls");
    door.close(link.into_stream());
    holds(&rt, door.accept(1).is_err(), "second accept");
    match door.closed() {
        [stream] => holds(&rt, stream.written() == b"?coin\n".as_slice(), "written"),
        _ => return Err(Fail::new("not closed")),
    }
    Ok(())
}

#[test]
fn loopback(rt: HostRuntime) -> Result<(), Fail> {
    let alloc = rt.alloc();
    let mut door = TcpDoor::new(&rt);
    door.bind("127.0.0.1:0").or(Err("no port"))?;
    let port = door.port().ok_or("no address")?;
    let mut dialer = TcpDialer::new(alloc, &rt);
    let address = format!(in alloc; "127.0.0.1:{port}")?;
    let mut link = dialer.dial(&address, 20).or(Err("no link"))?;
    let mut stream = door.accept(20).or(Err("no stream"))?;
    holds(&rt, calls_of(&mut link, "h. s?coin"), "an input");
    let mut buf = [0; 64];
    holds(&rt, stream.read(&mut buf) == Ok(Got::Bytes(6)), "its bytes");
    holds(&rt, buf.starts_with(b"?coin\n"), "its line");
    holds(&rt, stream.read(&mut buf) == Ok(Got::Idle), "no more");
    holds(&rt, stream.write(b"!tea\r\n!mi") == Ok(9), "an output");
    holds(
        &rt,
        calls_of(&mut link, "l=!tea h~!mi"),
        "its line and a part",
    );
    door.close(stream);
    holds(&rt, calls_of(&mut link, "h<!mi h<!mi"), "the end");
    dialer.hang_up(link);
    Ok(())
}

#[test]
fn refuses(rt: HostRuntime) -> Result<(), Fail> {
    let alloc = rt.alloc();
    let mut dialer = TcpDialer::new(alloc, &rt);
    let address = {
        let mut door = TcpDoor::new(&rt);
        door.bind("[::1]:0")
            .or(door.bind("127.0.0.1:0"))
            .or(Err("no port"))?;
        let port = door.port().ok_or("no address")?;
        format!(in alloc; "localhost:{port}")?
    };
    // nobody listens there any more
    holds(&rt, dialer.dial(&address, 20).is_err(), "nobody listens");
    dials_none(&rt, &mut dialer, NOWHERE);
    Ok(())
}

fn dials_none<R: Abort, D: Dialer>(rt: &R, dialer: &mut D, addresses: &str)
where
    D::Link: Drop,
{
    for address in addresses.split(';') {
        holds(rt, dialer.dial(address, 20).is_err(), address);
    }
}
