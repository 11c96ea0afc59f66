ghost use Rattle.std.specs.Prelude.{◌≡◌, ◌<◌, ◌+◌, ◌^◌, ◌++◌, List, Bool, true, [], length, drop, replicate, IfOk, OnOk};
ghost use Rattle.state_rules.specs.Bits.{row_number};
ghost use Rattle.forest_states.specs.inner.BitLists.{copied};
ghost use Rattle.forest_states.specs.inner.TransitionTables.{flags_in, filled};
ghost use Rattle.forest_states.specs.inner.Descents.{picked};

use crate::bit_list::BitList;
use crate::bits::Bits;
use crate::rows::{first_bits, later_bits, ones, with_bits};
use std::alloc::{AllocError, Global};
use std::marker::Model;

/// `count` bits that are picked, after `others` that are not.
#[derive(Clone, Copy, Debug)]
pub(crate) struct Run {
    pub(crate) others: usize,
    pub(crate) count: usize,
}

/// Which bits of a state are picked. Those side by side are copied at once.
#[derive(Drop)]
pub(crate) struct Picks {
    runs: Vec<Run>,
    last: Run,
}

impl Model for Picks {
    ghost use Rattle.std.specs.Prelude.{List, Bool};
    ghost use Rattle.forest_states.specs.inner.TransitionTables.{flags_in};

    ghost Value = { List Bool };

    ghost view = { λ p. flags_in p.runs.items p.last };
}

impl Picks {
    pub(crate) fn new(alloc: Global) -> Picks
        ensures { result ≡ [] }
    {
        Picks {
            runs: Vec::new(alloc),
            last: Run {
                others: 0,
                count: 0,
            },
        }
    }

    /// Adds whether the next `count` bits are picked.
    #[tactic(auto, using(crate::proofs::Rules::picks_push_steps))]
    pub(crate) fn push(&mut self, is_picked: bool, count: usize) -> Result<(), AllocError>
        requires { length self.old + count < 2 ^ 63 }
        ensures { OnOk result (self.new ≡ self.old ++ replicate count is_picked) }
    {
        if is_picked {
            self.last.count += count;
            return Ok(());
        }
        if self.last.count == 0 {
            self.last.others += count;
            return Ok(());
        }
        self.runs.push(self.last)?;
        self.last = Run {
            others: count,
            count: 0,
        };
        Ok(())
    }

    /// Returns the bits of a state that are picked, with room for `room`.
    pub(crate) fn pick(
        &self,
        alloc: Global,
        room: usize,
        state: &Bits<'_>,
    ) -> Result<BitList, AllocError>
        requires { length self.now < 2 ^ 63 }
        ensures { IfOk result (λ bits. bits ≡ picked self.now state.now) }
    {
        let mut bits = BitList::new(alloc, room)?;
        add_picked(&mut bits, self.runs.as_slice(), self.last, state)?;
        Ok(bits)
    }

    /// Returns the bits of a word that are picked, and their number.
    pub(crate) fn pick_row(&self, word: u64) -> (u64, usize)
        requires { length self.now < 64 }
        ensures { (state : List Bool) → word ≡ row_number state → (result.0 ≡ row_number (picked self.now state)) × (result.1 ≡ length (picked self.now state)) }
    {
        pick_row(self.runs.as_slice(), self.last, word)
    }

    /// Returns a word that is 1 where a bit is picked, and elsewhere has the bits of another word in turn.
    pub(crate) fn fill_row(&self, word: u64) -> u64
        requires { length self.now < 64 }
        ensures { (state : List Bool) → word ≡ row_number state → result ≡ row_number (filled self.now state) }
    {
        fill_row(self.runs.as_slice(), self.last, word)
    }
}

// Adds the bits of a state that runs pick to an empty list.
#[tactic(auto, using(crate::proofs::Rules::add_picked_steps))]
fn add_picked(
    bits: &mut BitList,
    runs: &[Run],
    last: Run,
    state: &Bits<'_>,
) -> Result<(), AllocError>
    requires few { length (flags_in runs.now last) < 2 ^ 63 }
    requires none { bits.old ≡ [] }
    ensures { OnOk result (bits.new ≡ picked (flags_in runs.now last) state.now) }
{
    let mut at = 0;
    for run in runs {
        at += run.others;
        bits.append(state, at, run.count)?;
        at += run.count;
    }
    bits.append(state, at + last.others, last.count)?;
    Ok(())
}

#[tactic(auto, using(crate::proofs::Rules::pick_row_steps))]
fn pick_row(runs: &[Run], last: Run, word: u64) -> (u64, usize)
    requires { length (flags_in runs.now last) < 64 }
    ensures { (state : List Bool) → word ≡ row_number state
        → (result.0 ≡ row_number (picked (flags_in runs.now last) state)) × (result.1 ≡ length (picked (flags_in runs.now last) state)) }
{
    let mut from = word;
    let mut left = 0;
    let mut len = 0;
    for run in runs {
        left = pick_run(*run, left, len, from);
        len += run.count;
        from = later_bits(from, run.others + run.count);
    }
    (pick_run(last, left, len, from), len + last.count)
}

// Adds the bits that a run picks to `len` others.
#[tactic(auto, using(crate::proofs::Rules::run_steps))]
fn pick_run(run: Run, left: u64, len: usize, from: u64) -> u64
    requires { len + run.others + run.count < 64 }
    ensures { (bits state : List Bool) → length bits ≡ len → left ≡ row_number bits → from ≡ row_number state
        → result ≡ row_number (bits ++ copied run.count (drop run.others state)) }
{
    with_bits(
        left,
        len,
        first_bits(later_bits(from, run.others), run.count),
    )
}

#[tactic(auto, using(crate::proofs::Rules::fill_row_steps))]
fn fill_row(runs: &[Run], last: Run, word: u64) -> u64
    requires { length (flags_in runs.now last) < 64 }
    ensures { (state : List Bool) → word ≡ row_number state → result ≡ row_number (filled (flags_in runs.now last) state) }
{
    let mut from = word;
    let mut left = 0;
    let mut len = 0;
    for run in runs {
        left = fill_run(*run, left, len, from);
        len += run.others + run.count;
        from = later_bits(from, run.others);
    }
    fill_run(last, left, len, from)
}

// Adds the bits that a run does not pick, and a 1 for each that it picks, to `len` others.
#[tactic(auto, using(crate::proofs::Rules::run_steps))]
fn fill_run(run: Run, left: u64, len: usize, from: u64) -> u64
    requires { len + run.others + run.count < 64 }
    ensures { (bits state : List Bool) → length bits ≡ len → left ≡ row_number bits → from ≡ row_number state
        → result ≡ row_number ((bits ++ copied run.others state) ++ replicate run.count true) }
{
    let others = with_bits(left, len, first_bits(from, run.others));
    with_bits(others, len + run.others, ones(run.count))
}
