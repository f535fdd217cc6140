//! Streams by TCP, and a door at which they come in.
//!
//! An address is a host, a colon and a port; the host is a name or a number, one of version 6 in
//! brackets.
ghost use Rattle.std.specs.Prelude.{◌≡◌, None, IfOk, is_some, false};

use crate::door::Door;
use crate::failed::Failed;
use crate::stream::{Got, Stream};
use std::io;
use std::io::{ErrorKind, Read, Write};
use std::net::{Net, OpenListener, OpenStream, TcpListener, TcpStream, ToSocketAddrs};
use std::time::Duration;

/// How long a connection or a write may take, in seconds.
const MOST_SECONDS: u64 = 10;

/// A stream whose reads give up after a tick.
#[derive(Drop)]
pub struct TcpLine<T: Read + Write> {
    stream: T,
    faults: u64,
    idles: u64,
}

impl<T: Read + Write + OpenStream + Drop> TcpLine<T> {
    // Over a connection, a tick of which is `tick` milliseconds. What is written goes out at once.
    fn open(stream: T, tick: u32) -> io::Result<TcpLine<T>>
        ensures { IfOk result (λ line. ⟦<TcpLine<T> as Stream>⟧.told line ≡ record { answers = None; written = None; faults = 0; idles = 0 }) }
    {
        stream.set_read_timeout(Some(Duration::from_millis(u64::from(tick))))?;
        stream.set_write_timeout(Some(Duration::from_secs(MOST_SECONDS)))?;
        stream.set_nodelay(true)?;
        Ok(TcpLine {
            stream,
            faults: 0,
            idles: 0,
        })
    }
}

impl<T: Read + Write> TcpLine<T> {
    /// How many faults there were.
    pub fn faults(&self) -> u64
        ensures { result ≡ (⟦<TcpLine<T> as Stream>⟧.told self.now).faults }
    {
        self.faults
    }

    /// How many idle answers there were.
    pub fn idles(&self) -> u64
        ensures { result ≡ (⟦<TcpLine<T> as Stream>⟧.told self.now).idles }
    {
        self.idles
    }
}

impl<T: Read + Write> Stream for TcpLine<T> {
    ghost told = { λ s. record { answers = None; written = None; faults = s.faults; idles = s.idles } };

    fn read(&mut self, buf: &mut [u8]) -> Result<Got, Failed> {
        match self.stream.read(buf) {
            Ok(0) => Ok(Got::End),
            Ok(count) => Ok(Got::Bytes(count)),
            Err(error) => {
                if is_idle(error.kind()) {
                    self.idles = self.idles.saturating_add(1);
                    return Ok(Got::Idle);
                }
                self.faults = self.faults.saturating_add(1);
                Err(Failed)
            }
        }
    }

    fn write(&mut self, piece: &[u8]) -> Result<usize, Failed> {
        if let Ok(count) = self.stream.write(piece)
            && (count > 0 || piece.is_empty())
        {
            return Ok(count);
        }
        self.faults = self.faults.saturating_add(1);
        Err(Failed)
    }
}

// Whether a read gave up after its tick.
fn is_idle(kind: ErrorKind) -> bool {
    kind == ErrorKind::WouldBlock || kind == ErrorKind::TimedOut
}

/// Connects to the first of the address's hosts that answers in time.
pub fn connect_tcp<R: Net>(net: &R, address: &str, tick: u32) -> io::Result<TcpLine<R::Stream>>
    ensures { IfOk result (λ line. ⟦<TcpLine<R::Stream> as Stream>⟧.told line ≡ record { answers = None; written = None; faults = 0; idles = 0 }) }
{
    for place in address.to_socket_addrs(net)? {
        if let Ok(stream) = TcpStream::connect_timeout(
            net,
            &place,
            Duration::from_secs(MOST_SECONDS),
        ) {
            return TcpLine::open(stream, tick);
        }
    }
    Err(io::Error::from(ErrorKind::ConnectionRefused))
}

/// A door by TCP.
#[derive(Drop)]
pub struct TcpDoor<'a, R: Net> {
    net: &'a R,
    listener: Option<R::Listener>,
    refused: u64,
    faults: u64,
    idles: u64,
}

impl<'a, R: Net> TcpDoor<'a, R> {
    /// A door that isn't bound yet.
    pub fn new(net: &'a R) -> TcpDoor<'a, R>
        ensures told { ⟦<TcpDoor<'a, R> as Door>⟧.told result ≡
            record { listens = false; asked = None; accepted = None; closed = None; refused = 0; faults = 0; idles = 0 } }
    {
        TcpDoor {
            net,
            listener: None,
            refused: 0,
            faults: 0,
            idles: 0,
        }
    }

    /// The port at which it listens.
    pub fn port(&self) -> Option<u16> {
        match &self.listener {
            Some(listener) => match listener.local_addr() {
                Ok(place) => Some(place.port()),
                Err(_) => None,
            },
            None => None,
        }
    }
}

// The next stream of a listener.
fn accept_from<L: OpenListener>(listener: &L, tick: u32) -> io::Result<TcpLine<L::Stream>>
where
    L::Stream: Read + Write + OpenStream,
    ensures { IfOk result (λ line. ⟦<TcpLine<L::Stream> as Stream>⟧.told line ≡ record { answers = None; written = None; faults = 0; idles = 0 }) }
{
    let (stream, _) = listener.accept()?;
    TcpLine::open(stream, tick)
}

impl<'a, R: Net> Door for TcpDoor<'a, R> {
    type Stream = TcpLine<R::Stream>;

    ghost told = { λ d. record {
      listens = is_some d.listener;
      asked = None;
      accepted = None;
      closed = None;
      refused = d.refused;
      faults = d.faults;
      idles = d.idles;
    } };

    fn bind(&mut self, address: &str) -> Result<(), Failed> {
        if let Ok(listener) = TcpListener::bind(self.net, address) {
            self.listener = Some(listener);
            return Ok(());
        }
        self.refused = self.refused.saturating_add(1);
        self.faults = self.faults.saturating_add(1);
        Err(Failed)
    }

    fn accept(&mut self, tick: u32) -> Result<TcpLine<R::Stream>, Failed> {
        if let Some(listener) = &self.listener
            && let Ok(stream) = accept_from(listener, tick)
        {
            return Ok(stream);
        }
        self.refused = self.refused.saturating_add(1);
        self.faults = self.faults.saturating_add(1);
        Err(Failed)
    }

    fn close(&mut self, stream: TcpLine<R::Stream>) {
        self.faults = self.faults.saturating_add(stream.faults());
        self.idles = self.idles.saturating_add(stream.idles());
    }
}
