//! A dialer in memory, of which chosen dials fail.
ghost use Rattle.std.specs.Prelude.{◌≡◌, ◌≤◌, ◌⊎◌, IfOk, is_err, slice_index_or};
ghost use Rattle.edge_io.specs.DialersInMemory.{AreNewLinks, after_dial, after_hang_up, dial_fails, new_dialer, told_of_dialer};
ghost use Rattle.edge_io.specs.Dials.{DialerFails, DialerIdles, IsNewLink, KeepsDialer, asked_of};
ghost use Rattle.edge_io.specs.Outside.{Grew};

use crate::asked::Asks;
use crate::calls::CallCount;
use crate::content::{Links, Numbers, Room};
use crate::dialer::{DialError, Dialer};
use crate::link::Link;
use lts_base::Memory;
use std::alloc::Global;
use std::marker::Model;
use std::vec::IntoIter;

/// A dialer whose links are given, one for each number of a dial. It keeps what was asked of it,
/// within the room that it took when it was made, and as many links that were hung up as were given.
#[derive(Drop)]
pub struct MemDialer<K: Link + Drop> {
    links: IntoIter<K>,
    asks: Asks,
    dials: CallCount,
    dialled: usize,
    ended: Vec<K>,
    // the room in `ended`
    most: usize,
    // whether each link that was hung up is among `ended`
    is_whole: bool,
    faults: u64,
    idles: u64,
}

impl<K: Link + Drop> Model for MemDialer<K> {
    ghost use Rattle.std.specs.Prelude.{◌+◌, ◌≤◌, length, vec_capacity};
    ghost use Rattle.std.specs.Vec.Iter.{into_iter_items, into_iter_len};
    ghost use Rattle.edge_io.specs.DialersInMemory.{AreNewLinks, DialerInMemory};

    ghost Value = { DialerInMemory K };

    ghost view = { λ d. record {
      links = into_iter_items d.links;
      asking = d.asks;
      dials = d.dials;
      dialled = d.dialled;
      ended = d.ended.items;
      most = d.most;
      is_whole = d.is_whole;
      faults = d.faults;
      idles = d.idles;
    } };

    ghost invariant = { λ d.
        AreNewLinks K.told (into_iter_items d.links)
        × (d.dialled + into_iter_len d.links ≤ d.most)
        × (d.most ≤ vec_capacity d.ended) };
}

impl<K: Link + Drop> MemDialer<K> {
    /// Dial number k, counted from 1, hands out link number k; a dial past the last link is a fault.
    /// The dials whose numbers stand in `fail_dials` are to fail. `room` is that for what was asked.
    pub fn new(
        alloc: Global,
        links: Links<K>,
        room: Room,
        fail_dials: Numbers,
    ) -> Result<MemDialer<K>, Memory>
        requires { AreNewLinks K.told links }
        ensures made { IfOk result (λ dialer. dialer ≡ new_dialer links room fail_dials) }
    {
        let most = links.as_slice().len();
        let ended = Vec::with_capacity(alloc, most)?;
        Ok(MemDialer {
            links: links.into_vec().into_iter(),
            asks: Asks::new(alloc, room)?,
            dials: CallCount::new(fail_dials),
            dialled: 0,
            ended,
            most,
            is_whole: true,
            faults: 0,
            idles: 0,
        })
    }

    /// The links that were hung up, those apart for which there was no room.
    pub fn ended(&self) -> &[K]
        ensures { result.now ≡ self.now.ended }
    {
        self.ended.as_slice()
    }
}

impl<K: Link + Drop> Dialer for MemDialer<K> {
    type Link = K;

    ghost told = { λ d. told_of_dialer K.told d };

    fn dial(&mut self, address: &str, tick: u32) -> Result<K, DialError>
        ensures link { IfOk result (λ link. (d : K) → link ≡ slice_index_or self.old.links 0 d) }
        ensures new { IfOk result (λ link. IsNewLink (K.told link)) }
        ensures fails { is_err result ≡ dial_fails self.old }
        ensures after { self.new ≡ after_dial self.old address.now tick }
        ensures asked { Grew self.old.asking.list self.new.asking.list (asked_of address.now tick result) }
        ensures later { self.old.faults ≤ self.new.faults }
    {
        let fails = self.dials.fails_next();
        if let Some(link) = self.links.next()
            && !fails
        {
            self.asks.add(address, tick, None);
            self.dialled += 1;
            return Ok(link);
        }
        self.asks.add(address, tick, Some(DialError::Failed));
        self.faults = self.faults.saturating_add(1);
        Err(DialError::Failed)
    }

    fn hang_up(&mut self, link: K)
        ensures after { self.new ≡ after_hang_up self.old link }
        ensures faults { ((K.told link).faults ≡ 0) ⊎ DialerFails (told_of_dialer K.told self.old) (told_of_dialer K.told self.new) }
        ensures idles { ((K.told link).idles ≡ 0) ⊎ DialerIdles (told_of_dialer K.told self.old) (told_of_dialer K.told self.new) }
        ensures later { KeepsDialer (told_of_dialer K.told self.old) (told_of_dialer K.told self.new) }
    {
        if self.ended.len() < self.most {
            self.ended.push_reserved(link);
            return;
        }
        self.is_whole = false;
        self.faults = self.faults.saturating_add(1);
        self.idles = self.idles.saturating_add(1);
    }
}
