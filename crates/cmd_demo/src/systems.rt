//! The two systems of `demo`.
ghost use Rattle.std.specs.Prelude.{◌≡◌, ◌∷◌, [], ◌<◌, IfOk};
ghost use Rattle.lts_base.specs.Raw.{AreLabelsOf, RawSystem};
ghost use Rattle.cmd_demo.specs.Systems.{ask, skip, reply, demo_labels, next, moves_below, demo_system, spec_moves_at, imp_moves_at, demo_spec, demo_imp};
ghost use Rattle.cmd_demo.specs.Named.{AreDemoOver, AreDemoMoves, IsAlphabetWith};

use crate::size::Size;
use lts_base::{Listed, Memory, RawLts, RawMove, RawMoves, Rule, SplitSystems, Text, Texts, split};
use std::alloc::Global;
use tool_base::TwoSystems;

/// The number of `?a` among the labels.
const INPUT: u32 = 0;

/// The number of `!x` among the labels.
const OUTPUT: u32 = 1;

/// The specification and the implementation of this size, over their alphabet.
pub(crate) fn both_systems(alloc: Global, size: Size) -> Result<TwoSystems, Memory>
    ensures { IfOk result (AreDemoOver size.number) }
{
    let mut raws = Listed::new(alloc);
    raws.push(spec_system(alloc, size)?)?;
    raws.push(imp_system(alloc, size)?)?;
    let SplitSystems { labels, systems } = over_alphabet(alloc, raws.as_slice())?;
    let mut systems = systems.into_vec();
    let (Some(second), Some(first)) = (systems.pop(), systems.pop()) else {
        unreachable!()
    };
    Ok(TwoSystems {
        labels,
        first,
        second,
    })
}

/// The systems over the alphabet of their labels, which the marks at their front sort.
fn over_alphabet(alloc: Global, raws: &[RawLts]) -> Result<SplitSystems, Memory>
    ensures { IfOk result (IsAlphabetWith raws.now) }
{
    match split(alloc, raws, &Rule::Prefix) {
        Ok(systems) => Ok(systems),
        // the marks sort both labels, so only memory can be wanting
        Err(_) => Err(Memory),
    }
}

/// The specification, its labels not yet sorted.
fn spec_system(alloc: Global, size: Size) -> Result<RawLts, Memory>
    ensures { IfOk result (λ r. r ≡ demo_spec size.number) }
{
    let moves = spec_moves(alloc, size)?;
    let system = raw_system(alloc, size, moves)?;
    Ok(system)
}

/// The implementation, its labels not yet sorted.
fn imp_system(alloc: Global, size: Size) -> Result<RawLts, Memory>
    ensures { IfOk result (λ r. r ≡ demo_imp size.number) }
{
    let moves = imp_moves(alloc, size)?;
    let system = raw_system(alloc, size, moves)?;
    Ok(system)
}

/// The system of this size with these moves.
fn raw_system(alloc: Global, size: Size, moves: RawMoves) -> Result<RawLts, Memory>
    requires { AreDemoMoves moves }
    ensures { IfOk result (λ r. r ≡ demo_system size.number moves) }
{
    let labels = both_labels(alloc)?;
    match RawLts::build(2 * size.number, 0, labels, moves) {
        Ok(raw) => Ok(raw),
        // the moves stay within the states and the labels, so there is no error
        Err(_) => Err(Memory),
    }
}

fn both_labels(alloc: Global) -> Result<Texts, Memory>
    ensures { IfOk result (λ labels. labels ≡ demo_labels) }
{
    let mut labels = Listed::new(alloc);
    labels.push(label(alloc, b"?a")?)?;
    labels.push(label(alloc, b"!x")?)?;
    Ok(labels)
}

fn label(alloc: Global, text: &[u8]) -> Result<Text, Memory>
    ensures { IfOk result (λ made. made ≡ text.now) }
{
    let bytes = Vec::from_slice(alloc, text)?;
    Ok(Listed::from_vec(bytes))
}

/// The moves of the specification.
fn spec_moves(alloc: Global, size: Size) -> Result<RawMoves, Memory>
    ensures { IfOk result (λ moves. moves ≡ moves_below (spec_moves_at size.number) size.number) }
{
    let mut moves = RawMoves::new(alloc);
    'places: for place in 0..size.number {
        let next = (place + 1) % size.number;
        moves.push(ask_move(place))?;
        moves.push(skip_move(place, next))?;
        moves.push(reply_move(place, next))?;
    }
    Ok(moves)
}

/// The moves of the implementation.
fn imp_moves(alloc: Global, size: Size) -> Result<RawMoves, Memory>
    ensures { IfOk result (λ moves. moves ≡ moves_below (imp_moves_at size.number) size.number) }
{
    let mut moves = RawMoves::new(alloc);
    'places: for place in 0..size.number {
        let next = (place + 1) % size.number;
        moves.push(ask_move(place))?;
        moves.push(reply_move(place, next))?;
    }
    Ok(moves)
}

fn ask_move(place: u32) -> RawMove
    requires { place < 65536 }
    ensures { result ≡ ask place }
{
    RawMove {
        from: 2 * place,
        label: Some(INPUT),
        to: 2 * place + 1,
    }
}

fn skip_move(place: u32, next: u32) -> RawMove
    requires place { place < 65536 }
    requires next { next < 65536 }
    ensures { result ≡ skip place next }
{
    RawMove {
        from: 2 * place,
        label: Some(INPUT),
        to: 2 * next + 1,
    }
}

fn reply_move(place: u32, next: u32) -> RawMove
    requires place { place < 65536 }
    requires next { next < 65536 }
    ensures { result ≡ reply place next }
{
    RawMove {
        from: 2 * place + 1,
        label: Some(OUTPUT),
        to: 2 * next,
    }
}
