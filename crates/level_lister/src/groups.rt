//! Groups of parts.
ghost use Rattle.std.specs.Prelude.{◌<◌};

/// The open parts from `low` on: `size` parts in a row are a group.
#[derive(Clone, Copy, Debug)]
pub(crate) struct Groups {
    pub(crate) low: usize,
    pub(crate) size: usize,
    ghost some: { 0 < size },
}

impl Groups {
    // No part is in any group.
    pub(crate) const NONE: Groups = Groups {
        low: usize::MAX,
        size: 1,
    };
}
