//! The outside as traits: files that are read, taps of what is read, sinks that are written to, and streams, links and
//! dialers to implementations under test, with their forms in memory and of the system. No other
//! crate reaches the system.
#![tactic(auto)]

pub mod act;
mod asked;
mod bound;
mod calls;
pub mod content;
pub mod dialer;
pub mod door;
pub mod failed;
pub mod files;
mod givens;
pub mod host;
mod kept;
pub mod link;
pub mod load;
pub mod memory_dialer;
pub mod memory_door;
pub mod memory_files;
pub mod memory_link;
pub mod memory_sink;
pub mod memory_stream;
pub mod put;
mod replier;
pub mod sink;
pub mod stream;
pub mod sure;
pub mod sure_dialer;
pub mod sure_link;
pub mod tap;
pub mod tcp;

pub use act::{Act, Acts, Heard, MOST_HEARD_BYTES};
pub use content::{
    Contents, Given, Givens, Links, NamedText, Numbers, Replies, Reply, Room, are_given, are_said,
};
pub use dialer::{DialError, Dialer};
pub use door::Door;
pub use failed::Failed;
pub use files::Files;
pub use host::{HostFiles, HostSink};
pub use link::Link;
pub use load::{LoadError, load_all};
pub use memory_dialer::MemDialer;
pub use memory_door::{MemDoor, Streams};
pub use memory_files::MemFiles;
pub use memory_link::MemLink;
pub use memory_sink::MemSink;
pub use memory_stream::MemStream;
pub use put::put_all;
pub use sink::Sink;
pub use stream::{Got, Stream};
pub use sure::{SureFiles, SureSink};
pub use sure_dialer::SureDialer;
pub use sure_link::SureLink;
pub use tap::{NoTap, Tap};
pub use tcp::{TcpDoor, TcpLine, connect_tcp};
