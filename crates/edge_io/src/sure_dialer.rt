//! A dialer without an outside, whose dials never fail.
ghost use Rattle.std.specs.Prelude.{◌≡◌, [], IfOk, Ok, None};
ghost use Rattle.edge_io.specs.Dials.{IsNewLink};

use crate::content::Replies;
use crate::dialer::{DialError, Dialer};
use crate::link::Link;
use crate::sure_link::SureLink;
use std::alloc::Global;

/// A dialer that gives a link without answers at each dial.
#[derive(Drop)]
pub struct SureDialer {
    alloc: Global,
    idles: u64,
}

impl SureDialer {
    /// A dialer that tells nothing of what is asked of it.
    pub fn new(alloc: Global) -> SureDialer
        ensures told { ⟦<SureDialer as Dialer>⟧.told result ≡ record { asked = None; dialled = None; ended = None; faults = 0; idles = 0 } }
    {
        SureDialer { alloc, idles: 0 }
    }
}

impl Dialer for SureDialer {
    type Link = SureLink;

    ghost told = { λ d. record { asked = None; dialled = None; ended = None; faults = 0; idles = d.idles } };

    fn dial(&mut self, _address: &str, _tick: u32) -> Result<SureLink, DialError>
        ensures sure { result ≡ Ok (record { held = record { replies = []; given = 0 }; said = []; idles = 0 }) }
        ensures new { IfOk result (λ link. IsNewLink (⟦<SureLink as Link>⟧.told link)) }
        ensures idles { self.new.idles ≡ self.old.idles }
    {
        Ok(SureLink::new(Replies::new(self.alloc)))
    }

    fn hang_up(&mut self, link: SureLink) {
        if link.was_idle() {
            self.idles = self.idles.saturating_add(1);
        }
    }
}
