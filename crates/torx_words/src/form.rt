//! The form of the words after a command.
ghost use Rattle.std.specs.Prelude.{◌≡◌, map};
ghost use Rattle.torx_words.specs.Named.{entry_from, shape_from};
ghost use Rattle.torx_words.specs.Options.{plain_shape};

/// What may stand as the value of an option.
#[derive(Clone, Copy, PartialEq, Eq, Debug)]
pub enum ValueKind {
    /// No value: the option is a flag.
    Flag,
    /// `prefix` or `suffix`.
    Marks,
    /// `refuse` or `quiet`.
    Divergence,
    /// A file or an address: not empty, and without `-` at its front.
    Name,
    /// A number of 1 to 20 digits, in this range.
    Number {
        /// The least that can stand.
        least: u64,
        /// The most that can stand.
        most: u64,
    },
}

/// An option of a command.
#[derive(Clone, Copy, Debug)]
pub struct NamedOption<'a> {
    /// Its name, without the dashes.
    pub name: &'a str,
    /// What may stand as its value.
    pub kind: ValueKind,
}

/// The form of the words after a command.
#[derive(Clone, Copy, Debug)]
pub struct Form<'a> {
    /// The options.
    pub options: &'a [NamedOption<'a>],
    /// The names of the options that must stand.
    pub required: &'a [&'a str],
    /// Pairs of names of options that exclude each other; `marks` and `inputs` always do.
    pub clashes: &'a [(&'a str, &'a str)],
    /// The least number of files.
    pub least: usize,
    /// The most files.
    pub most: usize,
}

impl<'a> Form<'a> {
    /// The form with these options and with `least` to `most` files, of which no option must stand
    /// and no further two exclude each other.
    pub fn plain(options: &'a [NamedOption<'a>], least: usize, most: usize) -> Form<'a>
        ensures { shape_from result ≡ plain_shape (map entry_from options.entry.now) least most }
    {
        Form {
            options,
            required: &[],
            clashes: &[],
            least,
            most,
        }
    }
}
