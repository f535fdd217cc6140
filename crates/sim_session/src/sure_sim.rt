//! A simulation as a link whose calls never fail.
ghost use Rattle.std.specs.Prelude.{◌≡◌, ◌≤◌, None, [], ◌∷◌, IfOk, OnErr, OnOk, IsTrue, IsOk};
ghost use Rattle.edge_io.specs.Links.{IsSaid, KeepsLink, LinkFails, LinkIdles, is_idle};
ghost use Rattle.edge_io.specs.Outside.{Gains};
ghost use Rattle.edge_io.specs.declared.act.Act.TheVariants.{Looked, Listened, Gave};
ghost use Rattle.sim_core.specs.Acts.{Simulated};
ghost use Rattle.sim_session.specs.Along.{GivesAny, sure_told};

use edge_io::{Failed, Heard, Link};
use rand_core::utils::NextWord;
use sim_core::SimLink;

/// A simulation that passes over a text that is no input, so that no call of it fails.
#[derive(Drop)]
pub(crate) struct SureSim<'a, R> {
    pub(crate) sim: SimLink<'a, R>,
}

impl<'a, R: NextWord<u32>> Link for SureSim<'a, R> {
    ghost State = { Simulated R };

    ghost state = { λ k. k.sim.simulated };

    ghost gives = { GivesAny R.step };

    ghost told = { λ k. sure_told k.sim };

    fn look(&mut self) -> Result<Heard, Failed> {
        match self.sim.look() {
            Ok(heard) => Ok(heard),
            Err(_) => unreachable!(),
        }
    }

    fn hear(&mut self) -> Result<Heard, Failed> {
        match self.sim.hear() {
            Ok(heard) => Ok(heard),
            Err(_) => unreachable!(),
        }
    }

    fn text(&self) -> &[u8] {
        self.sim.text()
    }

    fn send(&mut self, text: &[u8]) -> Result<(), Failed> {
        match self.sim.send(text) {
            Ok(()) | Err(_) => Ok(()),
        }
    }
}
