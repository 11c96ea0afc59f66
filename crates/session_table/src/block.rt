ghost use Rattle.std.specs.Prelude.{◌≡◌, ◌<◌, length, All, IfSome};
ghost use Rattle.std.specs.Option.{option_map};
ghost use Rattle.conditioner.specs.Evidence.{bits_of};
ghost use Rattle.session_table.specs.Tables.{count_of, with_noted};
ghost use Rattle.session_table.specs.inner.Blocks.{known_in, entry_in, with_point, IsLaidOut};

use conditioner::word_of_known;
use script_lang::Noted;

/// The numbers of parts, wires and variables of a session's block. It has a word for each variable, one for whether there is a point, and
/// one for each part of the point.
#[derive(Clone, Copy, Debug, PartialEq, Eq, Drop)]
pub(crate) struct Layout {
    pub(crate) parts: u32,
    pub(crate) wires: u32,
    pub(crate) vars: u32,
}

impl Layout {
    /// Notes what is known of a wire or a part. The session has no point then.
    #[tactic(auto, using(crate::proofs::Rules::noted_words))]
    pub(crate) fn note(self, block: &mut [u32], what: Noted, place: u32, known: Option<bool>)
        requires block { IsLaidOut self block.old }
        requires place { place < count_of self.parts self.wires what }
        ensures entry { entry_in self block.new ≡ with_noted (entry_in self block.old) what place known }
        ensures block { IsLaidOut self block.new }
    {
        let first = match what {
            Noted::Part => 0,
            Noted::Wire => self.parts as usize,
        };
        block[first + place as usize] = word_of_known(known);
        block[self.vars as usize] = 0;
    }

    /// Sets the point of the session to a state.
    pub(crate) fn set_point(self, block: &mut [u32], state: &[u32])
        requires block { IsLaidOut self block.old }
        requires long { length state.now ≡ self.parts }
        requires small { All (λ s. s < 2) state.now }
        ensures entry { entry_in self block.new ≡ with_point (entry_in self block.old) state.now }
        ensures block { IsLaidOut self block.new }
    {
        let vars = self.vars as usize;
        block[vars] = 1;
        block[vars + 1..].copy_from_slice(state);
    }

    /// Returns what the session knows: a word for each variable.
    pub(crate) fn known(self, block: &[u32]) -> &[u32]
        requires { IsLaidOut self block.now }
        ensures { result.now ≡ known_in self block.now }
    {
        &block[..self.vars as usize]
    }

    /// Returns the session's point, if there is one.
    pub(crate) fn point(self, block: &[u32]) -> Option<&[u32]>
        requires { IsLaidOut self block.now }
        ensures point { (entry_in self block.now).point ≡ option_map (λ state. bits_of state.now) result }
        ensures state { IfSome result (λ state. (length state.now ≡ self.parts) × All (λ s. s < 2) state.now) }
    {
        let vars = self.vars as usize;
        if block[vars] == 0 {
            None
        } else {
            Some(&block[vars + 1..])
        }
    }
}
