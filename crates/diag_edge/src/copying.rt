//! The copy at a read from memory.
ghost use Rattle.std.specs.Prelude.{◌≡◌, ◌+◌, ◌<◌, ◌≤◌, min, [], ◌++◌, length, take, drop};

/// Copies bytes from place `at` on to the front of `into`: as many as there are and fit, at most `most`. Returns how many.
pub(crate) fn copy_from(bytes: &[u8], at: usize, into: &mut [u8], most: usize) -> usize
    requires { at ≤ length bytes.now }
    ensures count { result ≡ min most (min (length into.new) (length (drop at bytes.now))) }
    ensures copied { drop at bytes.now ≡ take result into.new ++ drop (at + result) bytes.now }
    ensures end { result ≡ 0 → 0 < length into.new → 0 < most → drop (at + result) bytes.now ≡ [] }
{
    let count = most.min(into.len()).min(bytes.len() - at);
    into[..count].copy_from_slice(&bytes[at..at + count]);
    count
}
