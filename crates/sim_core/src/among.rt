//! Which moves of a state a simulation draws among.
ghost use Rattle.std.specs.Prelude.{◌≡◌};
ghost use Rattle.sim_core.specs.Drawn.{is_open};

use lts_base::Act;

/// The moves that are open to a simulation.
#[derive(Clone, Copy, Debug)]
pub enum Among {
    /// Those with Tau or an output: with a label from this number on.
    Outputs(u32),
    /// Those with Tau or this label.
    Taking(u32),
    /// Those with this label.
    Only(u32),
}

impl Among {
    /// Whether a move that carries this is among.
    pub fn has(self, act: Act) -> bool
        ensures { result ≡ is_open self act }
    {
        match act {
            Act::Tau => !matches!(self, Among::Only(_)),
            Act::Label(label) => match self {
                Among::Outputs(inputs) => label >= inputs,
                Among::Taking(input) | Among::Only(input) => label == input,
            },
        }
    }
}
