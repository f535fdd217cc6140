//! Links by TCP.
ghost use Rattle.std.specs.Prelude.{◌≡◌, None};

use crate::over_stream::LineLink;
use edge_io::{DialError, Dialer, TcpLine, connect_tcp};
use std::alloc::Global;
use std::net::Net;

/// What links lines to implementations by TCP. An address is a host, a colon and a port; the host is
/// a name or a number, one of version 6 in brackets.
#[derive(Drop)]
pub struct TcpDialer<'a, R: Net> {
    alloc: Global,
    net: &'a R,
    faults: u64,
    idles: u64,
}

impl<'a, R: Net> TcpDialer<'a, R> {
    /// A dialer by this network, which tells nothing of what is asked of it.
    pub fn new(alloc: Global, net: &'a R) -> TcpDialer<'a, R>
        ensures told { ⟦<TcpDialer<'a, R> as Dialer>⟧.told result ≡ record { asked = None; dialled = None; ended = None; faults = 0; idles = 0 } }
    {
        TcpDialer {
            alloc,
            net,
            faults: 0,
            idles: 0,
        }
    }
}

impl<'a, R: Net> Dialer for TcpDialer<'a, R> {
    type Link = LineLink<TcpLine<R::Stream>>;

    ghost told = { λ d. record { asked = None; dialled = None; ended = None; faults = d.faults; idles = d.idles } };

    fn dial(
        &mut self,
        address: &str,
        tick: u32,
    ) -> Result<LineLink<TcpLine<R::Stream>>, DialError> {
        if let Ok(stream) = connect_tcp(self.net, address, tick) {
            return match LineLink::new(self.alloc, stream) {
                Ok(link) => Ok(link),
                Err(_) => Err(DialError::Memory),
            };
        }
        self.faults = self.faults.saturating_add(1);
        Err(DialError::Failed)
    }

    fn hang_up(&mut self, link: LineLink<TcpLine<R::Stream>>) {
        let stream = link.into_stream();
        self.faults = self.faults.saturating_add(stream.faults());
        self.idles = self.idles.saturating_add(stream.idles());
    }
}
