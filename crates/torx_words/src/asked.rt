//! What the values of options ask for.

/// How labels are sorted into inputs and outputs.
#[derive(Clone, Copy, Debug)]
pub enum Sorting<'a> {
    /// By the mark at their front.
    Prefix,
    /// By the mark at their end.
    Suffix,
    /// The file of this name lists the inputs.
    Listed(&'a str),
}
