//! The limits of what is read, decided and printed. All crates take them from here.

/// The most states of a system that a file holds.
pub const MOST_STATES: u32 = 65_536;

/// The most moves of a system that a file holds or that a completion has.
pub const MOST_MOVES: u32 = 1_048_576;

/// The most labels that all files of a run have together.
pub const MOST_LABELS: usize = 1_024;

/// The most bytes of a label's text.
pub const MOST_LABEL_BYTES: usize = 1_024;

/// The most bytes of a line of an Aldebaran file, its line end apart.
pub const MOST_LINE_BYTES: usize = 4_096;

/// The most bytes of a file, but for certificates and for Aldebaran files that are read in pieces.
pub const MOST_FILE_BYTES: u64 = 67_108_864;

/// The most bytes of an Aldebaran file that is read in pieces.
pub const MOST_AUT_BYTES: u64 = 268_435_456;

/// The most bytes of a certificate's file.
pub const MOST_CERT_BYTES: u64 = 536_870_912;

/// The most pairs of sets that a decision may be asked to look at.
pub const MOST_PAIRS: u32 = 200_000;

/// The pairs that a decision looks at unless a number is given.
pub const USUAL_PAIRS: u32 = 50_000;

/// The most members that the sets of a walk may have together.
pub const MOST_MEMBERS: u64 = 33_554_432;

/// The members that the sets of one side may have unless a number is given.
pub const USUAL_MEMBERS: u64 = 16_777_216;
