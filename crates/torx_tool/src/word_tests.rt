//! Words, and what the program says of them where there are no files at all. Words are parted by
//! single blanks, and `''` is the empty word.
use crate::tests::answers;
use std::test::Fail;

/// Words whose first one is no command.
const NO_COMMAND: &str = r#"
--help | usage unknown-command\n | 3
-- | usage unknown-command\n | 3
Check a b | usage unknown-command\n | 3
checks a b | usage unknown-command\n | 3
'' | usage unknown-command\n | 3
--pairs 3 check a b | usage unknown-command\n | 3
'' check a b | usage unknown-command\n | 3
"#;

/// Words that are out of form.
const OUT_OF_FORM: &str = r#"
check a | usage words\n | 3
check a b c | usage words\n | 3
check --uioco | usage words\n | 3
check -- a b -- | usage words\n | 3
outs | usage words\n | 3
outs a -- b c | usage words\n | 3
angelic -- | usage words\n | 3
angelic a b | usage words\n | 3
check --pair 3 a b | usage words\n | 3
check --PAIRS 3 a b | usage words\n | 3
check -x a b | usage words\n | 3
check a b -1 | usage words\n | 3
check ---pairs 3 a b | usage words\n | 3
check --=3 a b | usage words\n | 3
check --help a b | usage words\n | 3
check -V a b | usage words\n | 3
outs --pairs 3 a | usage words\n | 3
outs --enabled a | usage words\n | 3
angelic --uioco a | usage words\n | 3
check a b --marks | usage words\n | 3
check --pairs=3 a --pairs 4 b | usage words\n | 3
check --divergence quiet --divergence=quiet a b | usage words\n | 3
check --enabled a --enabled b | usage words\n | 3
check --uioco= a b | usage words\n | 3
check --enabled=true a b | usage words\n | 3
check --pairs -1 a b | usage words\n | 3
check --pairs --uioco a b | usage words\n | 3
outs a --inputs -- | usage words\n | 3
check --pairs 0 a | usage words\n | 3
check --marks x --inputs f a | usage words\n | 3
"#;

/// Words with a value that is out of range.
const BAD_VALUES: &str = r#"
check --pairs 0 a b | usage value\n | 3
check --pairs 200001 a b | usage value\n | 3
check --members=33554433 a b | usage value\n | 3
check --pairs= a b | usage value\n | 3
check --pairs=-1 a b | usage value\n | 3
check --pairs - a b | usage value\n | 3
check --pairs '' a b | usage value\n | 3
check --pairs=+3 a b | usage value\n | 3
check --pairs 3x a b | usage value\n | 3
check --members 0x10 a b | usage value\n | 3
check --pairs 18446744073709551617 a b | usage value\n | 3
check --pairs 000000000000000000003 a b | usage value\n | 3
check --marks Prefix a b | usage value\n | 3
check --marks= a b | usage value\n | 3
check --divergence loud a b | usage value\n | 3
outs --divergence Quiet a | usage value\n | 3
check --inputs - a b | usage value\n | 3
check --inputs=-f a b | usage value\n | 3
check --inputs '' a b | usage value\n | 3
check a - | usage value\n | 3
check '' b | usage value\n | 3
check -- --uioco b | usage value\n | 3
check a -- -- | usage value\n | 3
outs a '' | usage value\n | 3
angelic -- -x | usage value\n | 3
check --marks x --inputs f a b | usage value\n | 3
check --marks prefix --inputs f --pairs 0 a b | usage value\n | 3
check --marks prefix --inputs f - b | usage value\n | 3
angelic --marks prefix --inputs f --divergence x a | usage value\n | 3
"#;

/// Options that clash.
const CLASHES: &str = r#"
check a --inputs f b --marks=prefix --pairs 3 | usage clash\n | 3
outs --inputs f --marks prefix a | usage clash\n | 3
angelic --marks=suffix --inputs=f a | usage clash\n | 3
"#;

/// Words that are read: the first file is missed.
const READ: &str = r#"
check a b | fault a\n | 5
check --pairs 1 --members 1 a b | fault a\n | 5
check --pairs 200000 --members 33554432 a b | fault a\n | 5
check --pairs 00000000000000000003 a b | fault a\n | 5
check --pairs 3 a --uioco b | fault a\n | 5
check a b --enabled | fault a\n | 5
check a --marks suffix b | fault a\n | 5
check --uioco a -- b | fault a\n | 5
check a b -- | fault a\n | 5
check --inputs f=g a b | fault a\n | 5
check --members 9 --inputs=f a --uioco b --pairs=7 --enabled --divergence=quiet | fault a\n | 5
check check help | fault check\n | 5
check --divergence refuse a b | fault a\n | 5
outs a | fault a\n | 5
outs --uioco a --marks prefix t | fault a\n | 5
outs --inputs f a --divergence quiet -- t | fault a\n | 5
angelic a --marks suffix | fault a\n | 5
angelic --divergence quiet -- a | fault a\n | 5
"#;

/// The command that needs no files.
const DEMO: &str = r#"
demo 2 | demo n=2\nconforms pairs=5\n | 0
demo 4 | demo n=4\nconforms pairs=13\n | 0
demo 00004 | demo n=4\nconforms pairs=13\n | 0
demo -- 4 | demo n=4\nconforms pairs=13\n | 0
demo 4000 | demo n=4000\nconforms pairs=15997\n | 0
demo 1 | usage value\n | 3
demo 4001 | usage value\n | 3
demo four | usage value\n | 3
demo '' | usage value\n | 3
demo - | usage value\n | 3
demo -- -4 | usage value\n | 3
demo -4 | usage words\n | 3
demo | usage words\n | 3
demo 4 4 | usage words\n | 3
demo --pairs 9 4 | usage words\n | 3
demo --marks prefix 4 | usage words\n | 3
demo 1 --uioco | usage words\n | 3
"#;

#[test]
fn decides_without_files(rt: HostRuntime) -> Result<(), Fail> {
    answers(&rt, rt.alloc(), "", DEMO)
}

#[test]
fn refuses_words(rt: HostRuntime) -> Result<(), Fail> {
    answers(&rt, rt.alloc(), "", NO_COMMAND)?;
    answers(&rt, rt.alloc(), "", OUT_OF_FORM)?;
    answers(&rt, rt.alloc(), "", BAD_VALUES)?;
    answers(&rt, rt.alloc(), "", CLASHES)
}

#[test]
fn reads_words(rt: HostRuntime) -> Result<(), Fail> {
    answers(&rt, rt.alloc(), "", READ)
}
