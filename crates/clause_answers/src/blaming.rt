ghost use Rattle.std.specs.Prelude.{◌≡◌, ℕ, ◌+◌, ◌^◌, ◌<◌, ◌≤◌, Bool, List, Some, length, slice_get, slice_index_or};
ghost use Rattle.state_rules.specs.Bits.{bit_in};
ghost use Rattle.clause_answers.specs.Questions.{Question, blame_of};
ghost use Rattle.clause_answers.specs.inner.Listed.{AreOk};
ghost use Rattle.clause_answers.specs.inner.Reported.{AreNoted, AreSettled, noted};

use crate::case_search::{CaseSearch, aim};
use crate::finding::{find, find_part};
use crate::oracle::Oracle;
use state_rules::Blame;

impl CaseSearch {
    /// Writes whether each part is faulty in all diagnoses, in some or in none. It asks only for what the states that were met do not show.
    pub fn blame(&mut self, verdicts: &mut [Blame])
        requires { length verdicts.old ≡ length self.old.costs }
        ensures blame { (part : ℕ) → part < length self.old.costs → slice_get verdicts.new part ≡ Some (blame_of self.old part) }
        ensures same { self.new ≡ self.old }
    {
        let _parts = self.parts();
        verdicts.fill(Blame::Inconsistent);
        if let Some(cost) = self.least() {
            aim(
                &mut self.oracle,
                self.least,
                &mut self.oks,
                &mut self.tried,
                cost,
            );
            if find(&mut self.oracle, &self.literals, 0) {
                note(verdicts, self.oracle.bits());
                settle(&mut self.oracle, &mut self.oks, verdicts);
            }
        }
    }
}

// Notes what one more state shows.
fn note(verdicts: &mut [Blame], bits: &[bool])
    requires { length verdicts.old ≤ length bits.now }
    ensures { (i : ℕ) → i < length verdicts.old
        → slice_index_or verdicts.new i Blame.Inconsistent ≡ noted (slice_index_or verdicts.old i Blame.Inconsistent) (bit_in bits.now i) }
{
    for part in 0..verdicts.len() {
        verdicts[part] = noted(verdicts[part], bits[part]);
    }
}

fn noted(verdict: Blame, is_ok: bool) -> Blame
    ensures { result ≡ noted verdict is_ok }
{
    match (verdict, is_ok) {
        (Blame::Always, true) | (Blame::Never, false) => Blame::Sometimes,
        (Blame::Inconsistent, true) => Blame::Never,
        (Blame::Inconsistent, false) => Blame::Always,
        _ => verdict,
    }
}

// Asks for what was not seen, part by part.
fn settle(oracle: &mut Oracle, oks: &mut [bool], verdicts: &mut [Blame])
    requires long { length verdicts.old ≡ length oracle.old.question.costs }
    requires oks_long { length oks.old ≡ length verdicts.old }
    requires few { length verdicts.old < 2 ^ 31 }
    requires oks { AreOk oracle.old.question oracle.old.low oracle.old.high oks.old }
    requires notes { AreNoted oracle.old.question oracle.old.low oracle.old.high verdicts.old }
    ensures notes { AreNoted oracle.old.question oracle.old.low oracle.old.high verdicts.new }
    ensures settled { AreSettled oracle.old.question oracle.old.low oracle.old.high verdicts.new (length verdicts.old) }
    ensures oks { AreOk oracle.old.question oracle.old.low oracle.old.high oks.new }
    ensures same { oracle.new ≡ record oracle.old { bits = oracle.new.bits } }
{
    for part in 0..verdicts.len() {
        settle_part(oracle, oks, verdicts, part);
    }
}

// Asks for what was not seen of a part.
fn settle_part(oracle: &mut Oracle, oks: &mut [bool], verdicts: &mut [Blame], part: usize)
    requires part { part < length verdicts.old }
    requires long { length verdicts.old ≡ length oracle.old.question.costs }
    requires oks_long { length oks.old ≡ length verdicts.old }
    requires few { length verdicts.old < 2 ^ 31 }
    requires oks { AreOk oracle.old.question oracle.old.low oracle.old.high oks.old }
    requires notes { AreNoted oracle.old.question oracle.old.low oracle.old.high verdicts.old }
    requires settled { AreSettled oracle.old.question oracle.old.low oracle.old.high verdicts.old part }
    ensures notes { AreNoted oracle.old.question oracle.old.low oracle.old.high verdicts.new }
    ensures settled { AreSettled oracle.old.question oracle.old.low oracle.old.high verdicts.new (part + 1) }
    ensures oks { AreOk oracle.old.question oracle.old.low oracle.old.high oks.new }
    ensures same { oracle.new ≡ record oracle.old { bits = oracle.new.bits } }
{
    let _parts = oracle.costs();
    let missing = match verdicts[part] {
        Blame::Always => true,
        Blame::Never => false,
        _ => return,
    };
    if !missing && (oks[part] || oracle.is_ok(part as u32)) {
        return;
    }
    if find_part(oracle, part, missing) {
        note(verdicts, oracle.bits());
    } else if !missing {
        oks[part] = true;
    }
}
