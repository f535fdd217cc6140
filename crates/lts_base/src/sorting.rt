//! One alphabet for all files: the labels sorted into inputs and outputs, and the systems over them.
ghost use Rattle.std.specs.Prelude.{◌≡◌, ℕ, ◌^◌, ◌<◌, [], ◌∷◌, ◌++◌, length, map, All, true, IfOk, IfErr, OnOk, IsTrue, IsSome, MatchResult, MatchOption, Contains, ◌⊎◌, ◌↔◌, if◌then◌else◌};
ghost use Rattle.std.specs.List.{list_any};
ghost use Rattle.std.specs.List.Sorted.{IsPermutation};
ghost use Rattle.std.specs.Str.{bytes_eq};
ghost use Rattle.lts_base.specs.Numbered.{shown, is_side, is_input, marked_side, AreFlagged, AreDistinctLabels, IsFaultAmong, AreNumbersOf, HasLabelBelow, renumbered};
ghost use Rattle.lts_base.specs.System.{IsSystem};
ghost use Rattle.lts_base.specs.Alphabet.{IsLabel, AreRising, text_at, is_reserved};
ghost use Rattle.lts_base.specs.Sorting.{side_of_mark, side_of, IsGoodLabel, IsLabelFault, all_labels, RefusesSplit, IsAlphabetOf, AreSystemsFor, IsSystemFor};

use crate::action::{Act, Move};
use crate::labels::Labels;
use crate::limits::MOST_LABELS;
use crate::list::{Listed, Text};
use crate::memory::Memory;
use crate::packed::PackedTexts;
use crate::raw::{RawLts, RawMove};
use crate::raw_moves::RawMoves;
use crate::sorted_moves::SortedMoves;
use crate::system::{Lts, Moves, Systems};
use std::alloc::{AllocError, AllocFailed, Global};

/// How labels are sorted into inputs and outputs.
#[derive(Drop, Debug)]
pub enum Rule {
    /// By the first byte: `?` is an input, `!` an output.
    Prefix,
    /// By the last byte: `?` is an input, `!` an output.
    Suffix,
    /// The listed labels are inputs, all others outputs.
    Listed(PackedTexts),
}

/// Why labels can't be sorted.
#[derive(Drop, Debug)]
pub enum SplitError {
    /// The first label at fault, which the rule sorts nowhere.
    Unsorted(Text),
    /// The first label at fault, which is `delta`, `i` or `tau`.
    Reserved(Text),
    /// There are more than `MOST_LABELS` labels.
    TooManyLabels,
    /// Memory ran out.
    Memory,
}

impl From<AllocError> for SplitError {
    ghost use Rattle.std.specs.Prelude.{◌≡◌};
    ghost use Rattle.lts_base.specs.declared.sorting.SplitError.TheVariants.{Memory as OutOfMemory};

    ghost from_gives = { λ _ e. e ≡ OutOfMemory };

    fn from(_error: AllocError) -> SplitError {
        SplitError::Memory
    }
}

impl From<Memory> for SplitError {
    ghost use Rattle.std.specs.Prelude.{◌≡◌};
    ghost use Rattle.lts_base.specs.declared.sorting.SplitError.TheVariants.{Memory as OutOfMemory};

    ghost from_gives = { λ _ e. e ≡ OutOfMemory };

    fn from(_error: Memory) -> SplitError {
        SplitError::Memory
    }
}

impl<T: Drop> From<AllocFailed<T>> for SplitError {
    ghost use Rattle.std.specs.Prelude.{◌≡◌};
    ghost use Rattle.lts_base.specs.declared.sorting.SplitError.TheVariants.{Memory as OutOfMemory};

    ghost from_gives = { λ _ e. e ≡ OutOfMemory };

    fn from(_error: AllocFailed<T>) -> SplitError {
        SplitError::Memory
    }
}

/// The labels of all systems, and the systems over them.
#[derive(Drop, Debug)]
pub struct SplitSystems {
    /// The alphabet.
    pub labels: Labels,
    /// One system for each raw one, in order.
    pub systems: Systems,
}

/// Labels by the side that the rule sorts them to.
#[derive(Drop)]
struct Sides {
    inputs: Vec<Text>,
    outputs: Vec<Text>,
}

/// The systems of raw ones over one alphabet, which has the labels of all of them.
pub fn split(alloc: Global, raw: &[RawLts], rule: &Rule) -> Result<SplitSystems, SplitError>
    ensures labels { IfOk result (λ s. IsAlphabetOf rule.now raw.now s.labels) }
    ensures systems { IfOk result (λ s. AreSystemsFor s.labels raw.now s.systems) }
    ensures sound { IfOk result (λ s. All IsSystem s.systems) }
    ensures err { IfErr result (RefusesSplit rule.now raw.now) }
{
    let labels = labels_of(alloc, raw, rule)?;
    let systems = systems_of(alloc, raw, &labels)?;
    Ok(SplitSystems { labels, systems })
}

/// Whether the text stands for quiescence or the internal action.
pub fn is_reserved_text(text: &[u8]) -> bool
    ensures { result ≡ is_reserved text.now }
{
    text == b"delta".as_slice() || text == b"i".as_slice() || text == b"tau".as_slice()
}

fn side_by_mark(mark: u8) -> Option<bool>
    ensures { result ≡ side_of_mark mark }
{
    match mark {
        b'?' => Some(true),
        b'!' => Some(false),
        _ => None,
    }
}

/// Where the label's mark sorts it, None also where the rule goes by a list.
fn marked_side(rule: &Rule, text: &[u8]) -> Option<bool>
    requires { 0 < length text.now }
    ensures { result ≡ marked_side rule.now text.now }
{
    match rule {
        Rule::Prefix => side_by_mark(text[0]),
        Rule::Suffix => side_by_mark(text[text.len() - 1]),
        Rule::Listed(_) => None,
    }
}

/// Whether the rule sorts the label to a side; a list sorts all.
fn is_sorted(rule: &Rule, text: &[u8]) -> bool
    requires { 0 < length text.now }
    ensures { IsTrue result ↔ IsSome (side_of rule.now text.now) }
{
    match rule {
        Rule::Listed(_) => true,
        _ => marked_side(rule, text).is_some(),
    }
}

/// Refuses the label where it is reserved or sorted nowhere.
fn test_label(alloc: Global, rule: &Rule, text: &[u8]) -> Result<(), SplitError>
    requires { 0 < length text.now }
    ensures { MatchResult result (λ _. IsGoodLabel rule.now text.now) (λ e. (e ≡ SplitError.Memory) ⊎ IsLabelFault rule.now text.now e) }
{
    if is_reserved_text(text) {
        let told = Vec::from_slice(alloc, text)?;
        return Err(SplitError::Reserved(Listed::from_vec(told)));
    }
    if is_sorted(rule, text) {
        return Ok(());
    }
    let told = Vec::from_slice(alloc, text)?;
    Err(SplitError::Unsorted(Listed::from_vec(told)))
}

/// Adds the labels of one more system to those seen.
fn gather<'a>(
    alloc: Global,
    rule: &Rule,
    texts: &'a [Text],
    seen: &mut Vec<&'a [u8]>,
) -> Result<(), SplitError>
    requires { All IsLabel texts.now }
    ensures seen { OnOk result (shown seen.new.items ≡ shown seen.old.items ++ texts.now) }
    ensures good { OnOk result (All (IsGoodLabel rule.now) texts.now) }
    ensures err { IfErr result (IsFaultAmong rule.now texts.now) }
{
    'texts: for text in texts {
        let bytes = text.as_slice();
        test_label(alloc, rule, bytes)?;
        seen.push(bytes)?;
    }
    Ok(())
}

/// Sorts the texts by their bytes and keeps each once.
fn sort_once(texts: &mut Vec<&[u8]>)
    ensures rising { AreRising (shown texts.new.items) }
    ensures each { All (Contains (shown texts.old.items)) (shown texts.new.items) }
    ensures all { All (Contains (shown texts.new.items)) (shown texts.old.items) }
{
    texts.sort_unstable_by(|a, b| a.cmp(b));
    texts.dedup_by(|a, b| a == b);
}

/// The labels of all systems, each once, in the order of their bytes.
fn distinct_labels<'a>(
    alloc: Global,
    raw: &'a [RawLts],
    rule: &Rule,
) -> Result<Vec<&'a [u8]>, SplitError>
    ensures ok { IfOk result (λ texts. AreDistinctLabels rule.now raw.now (shown texts.items)) }
    ensures err { IfErr result (RefusesSplit rule.now raw.now) }
{
    let mut texts = Vec::new(alloc);
    'systems: for system in raw {
        gather(alloc, rule, system.labels().as_slice(), &mut texts)?;
    }
    sort_once(&mut texts);
    if texts.len() > MOST_LABELS {
        return Err(SplitError::TooManyLabels);
    }
    Ok(texts)
}

/// The place of the text among texts that stand in the order of their bytes.
fn place_of(texts: &[&[u8]], text: &[u8]) -> Option<usize>
    requires { AreRising (shown texts.now) }
    ensures { MatchOption result (¬ Contains (shown texts.now) text.now) (λ k. (k < length texts.now) × (text_at (shown texts.now) k ≡ text.now)) }
{
    match texts.binary_search_by(|t| (*t).cmp(text)) {
        Ok(place) => Some(place),
        Err(_) => None,
    }
}

/// Which of the labels are listed. The list may be far longer than the labels, so it is gone
/// through once.
fn listed_flags(
    alloc: Global,
    inputs: &PackedTexts,
    texts: &[&[u8]],
) -> Result<Vec<bool>, AllocError>
    requires { AreRising (shown texts.now) }
    ensures { IfOk result (λ flags. flags.items ≡ map (λ t. list_any (bytes_eq t) inputs.now) (shown texts.now)) }
{
    let mut flags = Vec::from_elem(alloc, false, texts.len())?;
    for line in 0..inputs.len() {
        if let Some(place) = place_of(texts, inputs.get(line)) {
            flags[place] = true;
        }
    }
    Ok(flags)
}

/// Which of the labels have the mark of an input.
fn marked_flags(alloc: Global, rule: &Rule, texts: &[&[u8]]) -> Result<Vec<bool>, AllocError>
    requires { All IsLabel (shown texts.now) }
    ensures { IfOk result (λ flags. flags.items ≡ map (λ t. is_side true (marked_side rule.now t)) (shown texts.now)) }
{
    let mut flags = Vec::with_capacity(alloc, texts.len())?;
    for text in texts {
        flags.push(matches!(marked_side(rule, text), Some(true)))?;
    }
    Ok(flags)
}

/// Which of the labels the rule sorts to the inputs.
fn input_flags(alloc: Global, rule: &Rule, texts: &[&[u8]]) -> Result<Vec<bool>, AllocError>
    requires rising { AreRising (shown texts.now) }
    requires labels { All IsLabel (shown texts.now) }
    ensures { IfOk result (λ flags. flags.items ≡ map (is_input rule.now) (shown texts.now)) }
{
    match rule {
        Rule::Listed(inputs) => listed_flags(alloc, inputs, texts),
        _ => marked_flags(alloc, rule, texts),
    }
}

fn put(sides: &mut Sides, input: bool, text: Text) -> Result<(), Memory>
    ensures inputs { OnOk result (sides.new.inputs.items ≡ (if input then sides.old.inputs.items ++ text ∷ [] else sides.old.inputs.items)) }
    ensures outputs { OnOk result (sides.new.outputs.items ≡ (if input then sides.old.outputs.items else sides.old.outputs.items ++ text ∷ [])) }
{
    if input {
        sides.inputs.push(text)?;
        return Ok(());
    }
    sides.outputs.push(text)?;
    Ok(())
}

/// Copies the labels to the sides that their flags tell.
fn sides_of(alloc: Global, texts: &[&[u8]], flags: &[bool]) -> Result<Sides, Memory>
    requires { length flags.now ≡ length texts.now }
    ensures { IfOk result (λ s. AreFlagged (shown texts.now) flags.now s.inputs.items s.outputs.items) }
{
    let mut sides = Sides {
        inputs: Vec::new(alloc),
        outputs: Vec::new(alloc),
    };
    for (place, text) in texts.iter().enumerate() {
        let copy = Vec::from_slice(alloc, text)?;
        put(&mut sides, flags[place], Listed::from_vec(copy))?;
    }
    Ok(sides)
}

/// The alphabet of all systems.
fn labels_of(alloc: Global, raw: &[RawLts], rule: &Rule) -> Result<Labels, SplitError>
    ensures ok { IfOk result (IsAlphabetOf rule.now raw.now) }
    ensures err { IfErr result (RefusesSplit rule.now raw.now) }
{
    let texts = distinct_labels(alloc, raw, rule)?;
    let flags = input_flags(alloc, rule, &texts)?;
    let Sides {
        mut inputs,
        mut outputs,
    } = sides_of(alloc, &texts, &flags)?;
    let count = inputs.as_slice().len();
    inputs.append(&mut outputs)?;
    Ok(Labels::from_parts(inputs, count as u32))
}

/// The systems over the alphabet, one for each raw one.
fn systems_of(alloc: Global, raw: &[RawLts], labels: &Labels) -> Result<Systems, SplitError>
    requires { All (Contains labels.now.texts) (all_labels raw.now) }
    ensures ok { IfOk result (AreSystemsFor labels.now raw.now) }
    ensures sound { IfOk result (All IsSystem) }
    ensures err { IfErr result (λ e. e ≡ SplitError.Memory) }
{
    let mut systems = Listed::new(alloc);
    'systems: for system in raw {
        systems.push(system_of(alloc, system, labels)?)?;
    }
    Ok(systems)
}

/// The system over the alphabet.
fn system_of(alloc: Global, raw: &RawLts, labels: &Labels) -> Result<Lts, SplitError>
    requires { All (Contains labels.now.texts) raw.now.labels }
    ensures ok { IfOk result (IsSystemFor labels.now raw.now) }
    ensures sound { IfOk result IsSystem }
    ensures err { IfErr result (λ e. e ≡ SplitError.Memory) }
{
    let numbers = numbers_of(alloc, raw.labels().as_slice(), labels)?;
    let moves = moves_over(alloc, raw.moves(), &numbers)?;
    match Lts::build(alloc, raw.states(), raw.start(), labels, moves) {
        Ok(lts) => Ok(lts),
        // the parts of a raw system make a system, so only memory can be wanting
        Err(_) => Err(SplitError::Memory),
    }
}

/// The numbers that the texts have in the alphabet.
fn numbers_of(alloc: Global, texts: &[Text], labels: &Labels) -> Result<Vec<u32>, AllocError>
    requires { All (Contains labels.now.texts) texts.now }
    ensures { IfOk result (λ v. AreNumbersOf labels.now texts.now v.items) }
{
    let mut numbers = Vec::with_capacity(alloc, texts.len())?;
    'texts: for text in texts {
        let Some(number) = labels.find(text.as_slice()) else {
            unreachable!()
        };
        numbers.push(number)?;
    }
    Ok(numbers)
}

/// The moves with the numbers of the alphabet in place of those of the file. They are sorted, but for
/// those of a file with numbers that are too great.
fn moves_over(alloc: Global, raw: &RawMoves, numbers: &[u32]) -> Result<Moves, AllocError>
    requires { All (λ m. HasLabelBelow (length numbers.now) m) raw.now }
    ensures { IfOk result (λ ms. IsPermutation (map (renumbered numbers.now) raw.now) ms) }
{
    let mut moves = SortedMoves::new(alloc, raw.count(), are_by_state(raw))?;
    'places: for place in 0..raw.count() {
        moves.add(renumber(raw.at(place), numbers))?;
    }
    moves.into_moves()
}

/// Whether the states that the moves leave ascend.
fn are_by_state(raw: &RawMoves) -> bool {
    let mut last = 0;
    for place in 0..raw.count() {
        let from = raw.at(place).from;
        if from < last {
            return false;
        }
        last = from;
    }
    true
}

fn renumber(m: RawMove, numbers: &[u32]) -> Move
    requires { HasLabelBelow (length numbers.now) m }
    ensures { result ≡ renumbered numbers.now m }
{
    let act = match m.label {
        None => Act::Tau,
        Some(label) => Act::Label(numbers[label as usize]),
    };
    Move {
        from: m.from,
        act,
        to: m.to,
    }
}
