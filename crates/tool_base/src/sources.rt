//! What words say of the systems of a command.
use lts_base::Divergence;
use torx_words::Sorting;

/// The files of a command's systems, and how they are read.
#[derive(Clone, Copy, Debug)]
pub struct Sources<'a> {
    /// The names of the files.
    pub names: &'a [&'a str],
    /// How labels are sorted.
    pub sorting: Sorting<'a>,
    /// How cycles of internal moves are read.
    pub divergence: Divergence,
}
