//! The options that several commands have, and words for a table's other options. The words are
//! macros, since a table can't call a `const fn`.
use crate::form::{NamedOption, ValueKind};

/// `--marks prefix` or `--marks suffix`: how labels are sorted.
pub const MARKS: NamedOption<'static> = NamedOption {
    name: "marks",
    kind: ValueKind::Marks,
};

/// `--inputs FILE`: the file that lists the inputs.
pub const INPUTS: NamedOption<'static> = NamedOption {
    name: "inputs",
    kind: ValueKind::Name,
};

/// `--divergence refuse` or `--divergence quiet`: how divergent systems are read.
pub const DIVERGENCE: NamedOption<'static> = NamedOption {
    name: "divergence",
    kind: ValueKind::Divergence,
};

/// `--uioco`: the conformance relation is uioco.
pub const UIOCO: NamedOption<'static> = NamedOption {
    name: "uioco",
    kind: ValueKind::Flag,
};

/// The option of this name that has no value.
#[macro_export]
macro_rules! flag_option {
    ($name:expr) => {
        $crate::NamedOption {
            name: $name,
            kind: $crate::ValueKind::Flag,
        }
    };
}

/// The option of this name whose value names a file or an address.
#[macro_export]
macro_rules! name_option {
    ($name:expr) => {
        $crate::NamedOption {
            name: $name,
            kind: $crate::ValueKind::Name,
        }
    };
}

/// The option of this name whose value is a number in this range.
#[macro_export]
macro_rules! number_option {
    ($name:expr, $least:expr, $most:expr) => {
        $crate::NamedOption {
            name: $name,
            kind: $crate::ValueKind::Number {
                least: $least,
                most: $most,
            },
        }
    };
}
