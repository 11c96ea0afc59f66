ghost use Rattle.std.specs.Prelude.{◌≡◌, false};

use crate::NameIter;

/// Walks the names of `After`: the words of the text, in order.
pub fn each_name(names: &[u8]) -> NameIter<'_>
    ensures { result ≡ record { marks = false; text = names.now } }
{
    NameIter::words(names)
}
