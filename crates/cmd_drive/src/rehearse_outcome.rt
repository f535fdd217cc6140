//! What a rehearsal came to.
use crate::outcome::DriveOutcome;
use lts_base::Text;

/// What a rehearsal came to.
#[derive(Drop, Debug)]
pub enum RehearseOutcome {
    /// The implementation isn't input-enabled: this state lacks this input.
    NotEnabled {
        /// The name of its file.
        name: Text,
        /// The state.
        state: u32,
        /// The number of the input.
        label: u32,
    },
    /// The session ended so, and never as one whose link is broken.
    Went {
        /// How.
        outcome: DriveOutcome,
    },
}
