//! Hashes that keep nodes near each other in a table if their children are near each other.
ghost use Rattle.std.specs.Prelude.{◌≡◌};
ghost use Rattle.node_store.specs.inner.Nearby.{mixed};

use std::hash::{BuildHasher, Hasher};

/// Makes a `NearHasher` for each node.
#[derive(Clone, Copy, Debug)]
pub struct Nearby;

impl BuildHasher for Nearby {
    type Hasher = NearHasher;

    ghost build_hasher = { λ _. record { others = 0; before = 0; last = 0 } };

    fn build_hasher(&self) -> NearHasher {
        NearHasher {
            others: 0,
            before: 0,
            last: 0,
        }
    }
}

/// Keeps the last two words that were written, and a mix of the others.
///
/// The words of a node are the numbers of its children. A write of another length than four bytes is ignored: nodes with the same children
/// seldom differ by it. A table takes the group of a hash from its low bits, and separates the hashes in a group by its high bits. Nodes
/// are in one group if they differ only in the lowest 2 bits of the last child and the lowest 6 bits of the one before: those that are made
/// one after the other, and few more. The groups themselves lie anywhere. In the order of the children, full groups would lie side by
/// side, and a search would walk through all of them. Nodes with the same last child are spread over one group for each 64 numbers of
/// the others. The high bits mix all children.
#[derive(Clone, Copy, Debug)]
pub struct NearHasher {
    others: u32,
    before: u32,
    last: u32,
}

impl Hasher for NearHasher {
    ghost use Rattle.node_store.specs.inner.Nearby.{after, finished};

    ghost write = { after };

    ghost finish = { finished };

    #[inline(always)]
    fn finish(&self) -> u64 {
        let place = mix(mix(self.others, self.last >> 2), self.before >> 6);
        let tag = mix(mix(self.others, self.before), self.last);
        u64::from(place & 0x00FF_FFFF | tag & 0xFF00_0000)
    }

    #[inline(always)]
    fn write(&mut self, bytes: &[u8]) {
        if let [a, b, c, d] = bytes {
            self.others = mix(self.others, self.before);
            self.before = self.last;
            self.last = u32::from_le_bytes([*a, *b, *c, *d]);
        }
    }
}

// Mixes two words, so that each bit depends on most of theirs.
fn mix(hash: u32, word: u32) -> u32
    ensures { result ≡ mixed hash word }
{
    let product = u64::from(hash ^ word) * 0x9E37_79B1;
    (product >> 32) as u32 ^ (product & 0xFFFF_FFFF) as u32
}
