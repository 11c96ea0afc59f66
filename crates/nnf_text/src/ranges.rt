ghost use Rattle.std.specs.Prelude.{◌≡◌, ◌+◌, ◌^◌, ◌<◌, ◌++◌, ◌∷◌, [], decimal};
ghost use Rattle.std.specs.List.{flat_map, range_with_len};
ghost use Rattle.nnf_text.specs.Extending.{Extends};

use crate::GraphText;
use diag_edge::Sink;

/// Adds `count` and then `count` numbers from `first` on, each after a space, and a line feed.
#[tactic(auto, using(crate::proofs::Extended::extending))]
pub fn add_counted_range<O: Sink>(text: &mut GraphText, out: &mut O, first: u32, count: u32)
    requires { first + count < 2 ^ 32 }
    ensures { Extends (O.shown out.old) (O.shown out.new) text.old text.new
        ((32 ∷ decimal count)
        ++ (flat_map (λ n. 32 ∷ decimal n) (range_with_len first count) ++ 10 ∷ [])) }
{
    text.add_count(out, count);
    for i in 0..count {
        text.add_count(out, first + i);
    }
    text.add(out, b"\n");
}
