//! One of the two systems of a check, and which of its states are quiet. Cycles of moves with Tau
//! are looked for here, and not asked of the system.
ghost use Rattle.std.specs.Prelude.{◌≡◌, ◌↔◌, ℕ, ◌<◌, ◌≤◌, [], length, IsTrue, IfOk, true, false, slice_index_or as get_or};
ghost use Rattle.lts_base.specs.System.{IsSystem, IsQuiet, IsOnTauCycle, IsStable};
ghost use Rattle.cert_check.specs.Quiet.{AreQuiet, GivesSome};

use crate::marks::Marks;
use crate::moves::{has_move, spread};
use lts_base::{Act, Divergence, Lts, Memory};
use std::alloc::Global;
use std::marker::Model;

/// A system with a mark for each state, whether it is quiet.
#[derive(Drop)]
pub struct Side<'a> {
    lts: &'a Lts,
    quiet: Vec<bool>,
}

impl<'a> Model for Side<'a> {
    ghost use Rattle.lts_base.specs.System.{System, IsSystem};
    ghost use Rattle.cert_check.specs.Quiet.{AreQuiet};

    ghost Value = { System };

    ghost view = { λ a. a.lts.now };

    ghost invariant = { λ a. IsSystem a.lts.now × AreQuiet a.lts.now a.lts.now.states a.quiet.items };
}

impl<'a> Side<'a> {
    /// The system with its marks.
    pub fn new(alloc: Global, lts: &'a Lts) -> Result<Side<'a>, Memory>
        ensures same { IfOk result (λ s. s ≡ lts.now) }
        ensures system { IsSystem lts.now }
    {
        // the call tells what a system is
        let _ = lts.states();
        let quiet = quiet_states(alloc, lts)?;
        Ok(Side { lts, quiet })
    }

    /// The system itself.
    pub fn lts(&self) -> &Lts
        ensures { result.now ≡ self.now }
    {
        self.lts
    }

    /// How many states there are.
    pub fn states(&self) -> u32
        ensures states { result ≡ self.now.states }
        ensures system { IsSystem self.now }
    {
        self.lts.states()
    }

    /// How many of the labels are inputs.
    pub fn inputs(&self) -> u32
        ensures inputs { result ≡ self.now.inputs }
        ensures system { IsSystem self.now }
    {
        self.lts.inputs()
    }

    /// How many of the labels are outputs.
    pub fn outputs(&self) -> u32
        ensures outputs { result ≡ self.now.outputs }
        ensures system { IsSystem self.now }
    {
        self.lts.outputs()
    }

    /// Whether the state is quiet.
    pub fn is_quiet(&self, state: u32) -> bool
        requires { state < self.now.states }
        ensures { IsTrue result ↔ IsQuiet self.now state }
    {
        self.quiet[state as usize]
    }
}

/// For each state, whether it is quiet.
fn quiet_states(alloc: Global, lts: &Lts) -> Result<Vec<bool>, Memory>
    ensures { IfOk result (λ v. AreQuiet lts.now lts.now.states v.items) }
{
    let states = lts.states();
    let mut marks = Marks::new(alloc, states)?;
    let mut quiet = Vec::new(alloc);
    'states: for state in 0..states {
        let is = is_quiet(lts, &mut marks, state)?;
        quiet.push(is)?;
    }
    Ok(quiet)
}

fn is_quiet(lts: &Lts, marks: &mut Marks, state: u32) -> Result<bool, Memory>
    requires states { marks.old.states ≡ lts.now.states }
    requires state { state < lts.now.states }
    ensures states { marks.new.states ≡ marks.old.states }
    ensures quiet { IfOk result (λ b. IsTrue b ↔ IsQuiet lts.now state) }
{
    if !has_move(lts, state, Act::Tau) {
        return Ok(!gives_output(lts, state));
    }
    match lts.divergence() {
        Divergence::Refuse => Ok(false),
        Divergence::Quiet => Ok(returns(lts, marks, state)?),
    }
}

/// Whether a move with an output leaves the state.
fn gives_output(lts: &Lts, state: u32) -> bool
    requires { state < lts.now.states }
    ensures { IsTrue result ↔ GivesSome lts.now state }
{
    let inputs = lts.inputs();
    let moves = lts.moves_of(state);
    'moves: for m in moves {
        match m.act {
            Act::Tau => {}
            Act::Label(label) => {
                if label >= inputs {
                    return true;
                }
            }
        }
    }
    false
}

/// Whether moves with Tau lead from the state back to it. The search goes by the number of moves,
/// and ends where the state is met, so a short cycle costs little whatever lies behind it.
fn returns(lts: &Lts, marks: &mut Marks, state: u32) -> Result<bool, Memory>
    requires states { marks.old.states ≡ lts.now.states }
    requires state { state < lts.now.states }
    ensures states { marks.new.states ≡ marks.old.states }
    ensures back { IfOk result (λ b. IsTrue b ↔ IsOnTauCycle lts.now state) }
{
    marks.clear();
    spread(lts, marks, state, Act::Tau)?;
    let mut at = 0;
    'finds: while at < marks.len() {
        let found = marks.at(at);
        if found == state {
            return Ok(true);
        }
        spread(lts, marks, found, Act::Tau)?;
        at += 1;
    }
    Ok(false)
}
