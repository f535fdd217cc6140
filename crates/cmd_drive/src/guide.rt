//! What makes the choices of a session that is driven.
ghost use Rattle.std.specs.Prelude.{◌≡◌, ℕ, List};
ghost use Rattle.cmd_drive.specs.Guides.{answer_of};

use lts_base::Item;
use rand_pcg::Lcg64Xsh32;
use session_core::{Guided, Scripted, Seeded};
use walk_core::{Choice, Choose};

/// A chooser.
#[derive(Drop)]
pub enum Guide {
    /// It draws.
    Seeded(Seeded<Lcg64Xsh32>),
    /// It goes through a script.
    Scripted(Scripted),
    /// It leads along a trace.
    Guided(Guided),
}

impl Choose for Guide {
    ghost answer = { answer_of };

    fn choose(&mut self, offers: &[u32], done: &[Item]) -> Choice {
        match self {
            Guide::Seeded(chooser) => chooser.choose(offers, done),
            Guide::Scripted(chooser) => chooser.choose(offers, done),
            Guide::Guided(chooser) => chooser.choose(offers, done),
        }
    }
}
