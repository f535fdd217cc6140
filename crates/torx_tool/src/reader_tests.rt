//! Aldebaran files that are read in pieces: contents, and what each is read as, however it is cut.
use crate::graph_tests::described;
use crate::table::{bytes_of, cell, is_case, number, words_of};
use crate::tests::ran;
use aut_text::{AutLoad, AutReader, read_aut};
use edge_io::{Failed, Files, MemSink, NoTap, Numbers, SureDialer, Tap};
use std::alloc::{AllocError, Global};
use std::process::Abort;
use std::test::Fail;

/// A content of which each read gives at most so many bytes, whatever the name is.
#[derive(Drop)]
struct CutFile {
    content: Vec<u8>,
    size: usize,
}

impl Files for CutFile {
    ghost use Rattle.std.specs.Prelude.{None};

    ghost told = { λ _. record { content = λ _. None; faults = λ _. 0 } };

    fn read_at(&mut self, _name: &str, at: u64, buf: &mut [u8]) -> Result<usize, Failed> {
        let Some(rest) = self.content.get(at as usize..) else {
            return Ok(0);
        };
        let count = rest.len().min(self.size).min(buf.len());
        buf[..count].copy_from_slice(&rest[..count]);
        Ok(count)
    }
}

/// A number that is made of the bytes that were taken and of their order.
#[derive(Drop)]
struct Sum {
    sum: u64,
}

impl Tap for Sum {
    ghost took = { λ _ _. ⊥ };

    fn take(&mut self, piece: &[u8]) {
        for byte in piece {
            self.sum = self
                .sum
                .wrapping_mul(1_000_003)
                .wrapping_add(u64::from(*byte) + 1);
        }
    }
}

fn sum_of(bytes: &[u8]) -> u64 {
    let mut sum = Sum { sum: 0 };
    sum.take(bytes);
    sum.sum
}

/// What the content is read as in pieces of this size, or the text of its fault.
fn answer(
    alloc: Global,
    content: &[u8],
    size: usize,
    most: u64,
) -> Result<(Vec<u8>, u64), AllocError> {
    let mut files = CutFile {
        content: Vec::from_slice(alloc, content)?,
        size,
    };
    let mut tap = Sum { sum: 0 };
    let most = most.min(268_435_456);
    let text = match read_aut(alloc, &mut files, "cut", most, &mut tap) {
        Ok(raw) => described(alloc, &raw)?,
        Err(AutLoad::Bad(error)) => {
            let text = format!(in alloc; "{error}")?;
            Vec::from_slice(alloc, text.as_bytes())?
        }
        Err(AutLoad::TooLong) => Vec::from_slice(alloc, b"too-long")?,
        Err(AutLoad::Failed) => Vec::from_slice(alloc, b"failed")?,
        Err(AutLoad::Memory) => Vec::from_slice(alloc, b"memory")?,
    };
    Ok((text, tap.sum))
}

/// Reads the content in pieces of each size, and compares; where it is a file, its bytes went to
/// the tap once and in order, and one byte less is too few.
fn reads<R: Abort>(
    rt: &R,
    alloc: Global,
    content: &[u8],
    sizes: &str,
    want: &[u8],
) -> Result<(), Fail> {
    let long = content.len() as u64;
    for word in sizes.split(' ') {
        let size = number(word) as usize;
        let (got, sum) = answer(alloc, content, size, long)?;
        assert_eq!(rt; got.as_slice(), want, "in pieces of {size}");
        if want.starts_with(b"des ") {
            assert_eq!(rt; sum, sum_of(content), "in pieces of {size}");
            let (less, _) = answer(alloc, content, size, long.saturating_sub(1))?;
            assert_eq!(rt;
                less.as_slice(),
                b"too-long".as_slice(),
                "in pieces of {size}"
            );
        }
    }
    Ok(())
}

/// Contents, and what they are read as.
const CONTENTS: &str = r#"
des (0,3,3)\n(0,"?coin",1)\n(1,"!tea",2)\n(1,"!coffee",2)\n | des (0,3,3)\n(0,"?coin",1)\n(1,"!tea",2)\n(1,"!coffee",2)\n
des (0,1,2)\n(0,"!x",1) | des (0,1,2)\n(0,"!x",1)\n
 \t\r\n\n \r\nDES | header
 \t\r\n\n \r\ndes (1, 2,2)\r\n\r\n( 1 , "!x" , 0 )\r\n\t\n(0,tau,1)\r | des (1,2,2)\n(1,"!x",0)\n(0,"tau",1)\n
des (0,0,1) | des (0,0,1)\n
 | header
\n\r\n  | header
x\n | header
x | header
\r\r\ndes (0,0,1)\n | header
des (1,0,1)\n(0,a | header
des (0,0,65537)\n | too-many-states
des (0,1048577,1)\n | too-many-moves
des (0,1,1)\n\n(0,"",0)\n | line 3
des (0,1,1)\n(0,a,0)\nx\n(0,\ff,0)\n | line 3
des (0,1,1)\n\r\r\n(0,a,0)\n | line 2
des (0,1,1)\n(0,\ff,0) | not-utf8 2
des (0,1,1)\n(0,a,1)\nx\n | state 2
des (0,2,1)\n(0,a,0)\n | count declared=2 found=1
des (0,0,1)\n(0,a,0) | count declared=0 found=1
"#;

/// Sizes of pieces.
const SIZES: &str = "1 2 3 4 5 6 7 8 9 10 11 12 13 14 15 16 17 19 23 64 65536";

#[test]
fn cuts_do_not_matter(rt: HostRuntime) -> Result<(), Fail> {
    for case in CONTENTS.lines() {
        if is_case(case) {
            let content = bytes_of(rt.alloc(), cell(case, 0))?;
            let want = bytes_of(rt.alloc(), cell(case, 1))?;
            reads(&rt, rt.alloc(), content.as_slice(), SIZES, want.as_slice())?;
        }
    }
    Ok(())
}

/// What stands before so many blanks, the blanks, what comes after them, and what is read.
const LONG: &str = r#"
 | 5000 | \r\ndes (0,0,1)\n | des (0,0,1)\n
 | 5000 | \ndes (0,1,1)\n(0,a,0)\n | des (0,1,1)\n(0,"a",0)\n
 | 5000 | \r | header
 | 5000 | \r \ndes (0,0,1)\n | header
 | 5000 | \r\r\ndes (0,0,1)\n | header
 | 5000 | x\ndes (0,0,1)\n | header
 | 4085 | des (0,0,1)\n | des (0,0,1)\n
 | 4084 | des (0,0,1)\r\n | des (0,0,1)\n
 | 4086 | des (0,0,1)\n | header
 | 4085 | des (0,0,1)\r\n | header
des (0,1,1)\n | 5000 | \r\n(0,a,0)\n | des (0,1,1)\n(0,"a",0)\n
des (0,1,1)\n | 4089 | (0,a,0) | des (0,1,1)\n(0,"a",0)\n
des (0,1,1)\n | 4090 | (0,a,0) | line 2
des (0,1,1)\n | 4089 | (0,a,0)\r\n | line 2
des (0,1,1)\n\n | 5000 | x | line 3
des (0,1,1)\n(0,a,0)\n | 9000 |  | des (0,1,1)\n(0,"a",0)\n
x\n | 9000 | y | header
"#;

/// Sizes of the pieces of a long content.
const WIDE: &str = "1 2 3 100 4095 4096 4097 4098 5000 5001 5002 5003 65536";

#[test]
fn long_lines_are_met(rt: HostRuntime) -> Result<(), Fail> {
    for case in LONG.lines() {
        if is_case(case) {
            let mut content = bytes_of(rt.alloc(), cell(case, 0))?;
            for _ in 0..number(cell(case, 1)) {
                content.push(b' ')?;
            }
            let rest = bytes_of(rt.alloc(), cell(case, 2))?;
            content.extend_from_slice(rest.as_slice())?;
            let want = bytes_of(rt.alloc(), cell(case, 3))?;
            reads(&rt, rt.alloc(), content.as_slice(), WIDE, want.as_slice())?;
        }
    }
    Ok(())
}

/// A fault in the bytes that were asked for comes before a byte too many, and no later one does.
#[test]
fn a_further_byte_is_looked_for(rt: HostRuntime) -> Result<(), Fail> {
    let content = b"des (0,0,1)\nx\n".as_slice();
    for (most, want) in [
        (14, b"line 2".as_slice()),
        (13, b"too-long"),
        (12, b"too-long"),
        (0, b"too-long"),
    ] {
        for size in 1..16 {
            let (got, _) = answer(rt.alloc(), content, size, most)?;
            assert_eq!(&rt; got.as_slice(), want, "{most} bytes in pieces of {size}");
        }
    }
    Ok(())
}

#[test]
fn an_error_stays(rt: HostRuntime) -> Result<(), Fail> {
    let mut reader = AutReader::new(rt.alloc())?;
    let Err(first) = reader.feed(b"x\n") else {
        return Err(Fail::new("no error"));
    };
    let Err(second) = reader.feed(b"des (0,0,1)\n") else {
        return Err(Fail::new("no second error"));
    };
    let Err(last) = reader.end() else {
        return Err(Fail::new("no last error"));
    };
    for error in [first, second, last] {
        let text = format!(in rt.alloc(); "{error}")?;
        assert_eq!(&rt; text.as_str(), "header");
    }
    Ok(())
}

/// A tap that tells nothing takes nothing.
#[test]
fn a_tap_may_keep_nothing(rt: HostRuntime) -> Result<(), Fail> {
    let mut files = CutFile {
        content: Vec::from_slice(rt.alloc(), b"des (0,0,1)\n")?,
        size: 5,
    };
    let read = read_aut(rt.alloc(), &mut files, "cut", 12, &mut NoTap);
    assert!(&rt; read.is_ok());
    Ok(())
}

/// A file of so many spaces, whatever its name is.
#[derive(Drop)]
struct BlankFile {
    size: u64,
}

impl Files for BlankFile {
    ghost use Rattle.std.specs.Prelude.{None};

    ghost told = { λ _. record { content = λ _. None; faults = λ _. 0 } };

    fn read_at(&mut self, _name: &str, at: u64, buf: &mut [u8]) -> Result<usize, Failed> {
        let rest = self.size.saturating_sub(at).min(buf.len() as u64);
        let count = rest as usize;
        buf[..count].fill(b' ');
        Ok(count)
    }
}

/// So many spaces, what is printed for them, and the exit status.
const BLANKS: &str = r#"
5000 | bad B.aut header\n | 4
268435456 | bad B.aut header\n | 4
268435457 | too-long B.aut\n | 4
"#;

/// Reads a file of blanks by a run.
fn try_blanks<R: Abort>(rt: &R, alloc: Global, case: &str) -> Result<(), Fail> {
    let mut files = BlankFile {
        size: number(cell(case, 0)),
    };
    let mut out = MemSink::new(alloc, 1000, 1000, Numbers::new(alloc))?;
    let words = words_of(alloc, "outs B.aut")?;
    let status = ran(
        alloc,
        &words,
        &mut files,
        &mut out,
        &mut SureDialer::new(alloc),
    );
    let want = bytes_of(alloc, cell(case, 1))?;
    assert_eq!(rt; out.written(), want.as_slice(), "{case}");
    assert_eq!(rt; u64::from(status.code()), number(cell(case, 2)), "{case}");
    Ok(())
}

#[test]
fn a_file_of_blanks_is_read_to_its_limit(rt: HostRuntime) -> Result<(), Fail> {
    for case in BLANKS.lines() {
        if is_case(case) {
            try_blanks(&rt, rt.alloc(), case)?;
        }
    }
    Ok(())
}
