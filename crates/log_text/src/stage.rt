//! How far a log has been read.
use crate::log::{Entries, Head, Named};
use lts_base::{Divergence, Mode, Text};

/// What the lines of a log before its entries say.
#[derive(Clone, Copy, Debug)]
pub struct Setting {
    /// The version, and what it tells.
    pub head: Head,
    /// The conformance that was tested.
    pub mode: Mode,
    /// How many idle reads in a row count as quiescence.
    pub patience: u32,
    /// The most entries.
    pub steps: u32,
}

/// What the lines of a log so far say.
#[derive(Drop, Debug)]
pub enum Stage {
    /// There is no line yet.
    Opening,
    /// The title of version 1.
    TitledOne,
    /// The title of version 2.
    TitledTwo,
    /// The title of version 2, and the mode.
    Moded(Mode),
    /// The same, and how divergence was read.
    Divided(Mode, Divergence),
    /// The whole head and the mode.
    Headed(Head, Mode),
    /// The same, and the patience.
    Patient(Head, Mode, u32),
    /// The setting and the entries so far.
    Listing(Setting, Entries),
    /// The setting, all entries, and the bytes that are left.
    Leaving(Setting, Entries, Text),
}

/// What one more line makes of a log that is begun.
#[derive(Drop, Debug)]
pub enum Step {
    /// The log goes on.
    Goes(Stage),
    /// The log is whole.
    Ends(Named),
}
