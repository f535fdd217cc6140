//! Start tags.
ghost use Rattle.std.specs.Prelude.{◌≡◌};
ghost use Rattle.graphml_scan.specs.Piece.{local_name};

use crate::attributes::Attribute;

/// A start tag.
#[derive(Drop)]
pub struct Tag<'a, 'b> {
    /// The name as it is written.
    pub name: &'a [u8],
    /// What follows the name's first colon, or the whole name.
    pub local: &'a [u8],
    /// The attributes in the order of the tag, no two of one name.
    pub attributes: &'b [Attribute<'a>],
    /// Whether the element ends with this tag.
    pub whole: bool,
    ghost is_local: { local.now ≡ local_name name.now },
}
