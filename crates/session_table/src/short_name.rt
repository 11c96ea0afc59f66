ghost use Rattle.std.specs.Prelude.{◌≡◌, ◌≤◌, length};
ghost use Rattle.std.specs.Ordering.{nat_cmp};
ghost use Rattle.std.specs.Cmp.Lexicographic.{slice_cmp};
ghost use Rattle.text_rules.specs.declared.names.TheConstants.{SHORT_NAME_LIMIT};

use std::cmp::Ordering;
use std::marker::Model;
use text_rules::SHORT_NAME_LIMIT;

/// The name of a session, without allocated memory.
#[derive(Drop)]
pub(crate) struct ShortName {
    bytes: [u8; SHORT_NAME_LIMIT],
    len: usize,
}

impl Model for ShortName {
    ghost use Rattle.std.specs.Prelude.{ℕ, List, ◌≤◌, take};
    ghost use Rattle.text_rules.specs.declared.names.TheConstants.{SHORT_NAME_LIMIT};

    ghost Value = { List ℕ };

    ghost view = { λ n. take n.len n.bytes };

    ghost invariant = { λ n. n.len ≤ SHORT_NAME_LIMIT };
}

impl ShortName {
    /// Holds a name.
    pub(crate) fn of(name: &[u8]) -> ShortName
        requires { length name.now ≤ SHORT_NAME_LIMIT }
        ensures { result ≡ name.now }
    {
        let mut bytes = [0; SHORT_NAME_LIMIT];
        bytes[..name.len()].copy_from_slice(name);
        ShortName {
            bytes,
            len: name.len(),
        }
    }

    /// Compares the name to another, byte by byte.
    pub(crate) fn compare(&self, other: &[u8]) -> Ordering
        ensures { result ≡ slice_cmp nat_cmp self.now other.now }
    {
        self.bytes[..self.len].cmp(other)
    }
}
