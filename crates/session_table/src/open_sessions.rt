ghost use Rattle.std.specs.Prelude.{◌≡◌, ◌+◌, ◌*◌, ◌<◌, ◌≤◌, [], Some, None, true, length, nat_le, All, IfOk, IfSome, IfNone};
ghost use Rattle.std.specs.Option.{option_map};
ghost use Rattle.text_rules.specs.Names.{Name, is_short_name};
ghost use Rattle.conditioner.specs.Evidence.{bits_of};
ghost use Rattle.scratch_pool.specs.declared.pool.TheConstants.{POOL_LIMIT};
ghost use Rattle.session_rules.specs.Sessions.{Entry, entry_of, with_entry, without};
ghost use Rattle.session_rules.specs.CaseEvidence.{case_of_evidence, IsEvidence};
ghost use Rattle.session_table.specs.Tables.{StandsAt, fresh_entry, Fits, count_of, with_noted};

use crate::Memory;
use crate::block::Layout;
use crate::in_order::{Open, find_place};
use crate::short_name::ShortName;
use scratch_pool::Pool;
use script_lang::Noted;
use std::alloc::Global;
use std::marker::Model;

/// The open sessions, in the order of their names. [`OpenSessions::new`] takes all memory. The type is not `Drop`: [`OpenSessions::finish`]
/// consumes it.
pub struct OpenSessions {
    layout: Layout,
    limit: u32,
    pool: Pool,
    open: Vec<Open>,
}

impl Model for OpenSessions {
    ghost use Rattle.std.specs.Prelude.{vec_capacity};
    ghost use Rattle.session_table.specs.Tables.{Opened};
    ghost use Rattle.session_table.specs.inner.Ordered.{table_of, AreKept};

    ghost Value = { Opened };

    ghost view = { λ s. record {
      parts = s.layout.parts;
      wires = s.layout.wires;
      vars = s.layout.vars;
      limit = s.limit;
      table = table_of s.layout s.pool s.«open».items;
    } };

    ghost invariant = { λ s. AreKept s.layout s.limit s.pool s.«open».items (vec_capacity s.«open») };
}

impl OpenSessions {
    /// Makes a table without open sessions, for at most `sessions`, each over these parts, wires and variables. `Err` means that memory ran
    /// out.
    pub fn new(
        alloc: Global,
        parts: u32,
        wires: u32,
        vars: u32,
        sessions: u32,
    ) -> Result<OpenSessions, Memory>
        requires vars { parts + wires ≤ vars }
        requires words { sessions * (vars + 1 + parts) < POOL_LIMIT }
        ensures { IfOk result (λ opened. opened
            ≡ record { parts = parts; wires = wires; vars = vars; limit = sessions; table = [] }) }
    {
        // If no session may be open there is no block, and its number of words might not fit.
        let size = if sessions == 0 { 0 } else { vars + 1 + parts };
        Ok(OpenSessions {
            layout: Layout { parts, wires, vars },
            limit: sessions,
            pool: Pool::new(alloc, sessions, size)?,
            open: Vec::with_capacity(alloc, sessions as usize)?,
        })
    }

    /// Returns the number of parts of each case. By its contract, the case of each open session fits.
    pub fn parts(&self) -> u32
        ensures parts { result ≡ self.now.parts }
        ensures cases { (session : Name) (entry : Entry) → entry_of session self.now.table ≡ Some entry
            → Fits self.now.parts self.now.wires entry }
    {
        self.layout.parts
    }

    /// Whether as many sessions are open as are allowed.
    pub fn is_full(&self) -> bool
        ensures { result ≡ nat_le self.now.limit (length self.now.table) }
    {
        self.limit as usize <= self.open.len()
    }

    /// Returns the place of an open session, or `None` exactly if no session of this name is open.
    #[tactic(auto, using(crate::proofs::Rules::found_places))]
    pub fn find(&self, session: &[u8]) -> Option<usize>
        ensures within { IfSome result (λ place. place < length self.now.table) }
        ensures some { IfSome result (λ place. (entry : Entry) × StandsAt self.now.table place session.now entry) }
        ensures none { IfNone result (entry_of session.now self.now.table ≡ None) }
    {
        find_place(&self.open, session).ok()
    }

    /// Opens a session, which knows nothing yet.
    #[tactic(auto, using(crate::proofs::Rules::taken_blocks))]
    pub fn start(&mut self, session: &[u8])
        requires name { is_short_name session.now ≡ true }
        requires closed { entry_of session.now self.old.table ≡ None }
        requires room { length self.old.table < self.old.limit }
        ensures { self.new ≡ record self.old {
          table = with_entry session.now (fresh_entry self.old) self.old.table;
        } }
    {
        let place = find_place(&self.open, session).unwrap_err();
        let block = self.pool.take().unwrap();
        let name = ShortName::of(session);
        self.open.insert(place, Open { name, block }).unwrap();
    }

    /// Closes the session at a place.
    #[tactic(auto, using(crate::proofs::Rules::given_blocks))]
    pub fn stop(&mut self, place: usize)
        requires { place < length self.old.table }
        ensures { (session : Name) (entry : Entry) → StandsAt self.old.table place session entry
            → self.new ≡ record self.old { table = without session self.old.table } }
    {
        let Open { name: _, block } = self.open.remove(place);
        self.pool.give(block);
    }

    /// Notes in the session at `place` what is known of the wire, or the part, at `at`: a bit, or nothing any more. The session has no
    /// point then.
    #[tactic(auto, using(crate::proofs::Rules::written_blocks))]
    pub fn note(&mut self, place: usize, what: Noted, at: u32, known: Option<bool>)
        requires place { place < length self.old.table }
        requires at { at < count_of self.old.parts self.old.wires what }
        ensures { (session : Name) (entry : Entry) → StandsAt self.old.table place session entry
            → self.new ≡ record self.old { table = with_entry session (with_noted entry what at known) self.old.table } }
    {
        let block = &self.open[place].block;
        self.layout
            .note(self.pool.words_mut(block), what, at, known);
    }

    /// Returns what the session at a place knows: a word for each variable.
    #[tactic(auto, using(crate::proofs::Rules::blocks_at_places))]
    pub fn evidence(&self, place: usize) -> &[u32]
        requires { place < length self.now.table }
        ensures evidence { IsEvidence self.now.parts self.now.wires self.now.vars result.now }
        ensures known { (session : Name) (entry : Entry) → StandsAt self.now.table place session entry
            → entry.known ≡ case_of_evidence self.now.parts self.now.wires result.now }
    {
        self.layout.known(self.pool.words(&self.open[place].block))
    }

    /// Returns the point of the session at a place, if it has one: a word for each part, 0 if it is ok, 1 if it is faulty.
    #[tactic(auto, using(crate::proofs::Rules::blocks_at_places))]
    pub fn point(&self, place: usize) -> Option<&[u32]>
        requires { place < length self.now.table }
        ensures point { (session : Name) (entry : Entry) → StandsAt self.now.table place session entry
            → entry.point ≡ option_map (λ state. bits_of state.now) result }
        ensures state { IfSome result (λ state. (length state.now ≡ self.now.parts) × All (λ s. s < 2) state.now) }
    {
        self.layout.point(self.pool.words(&self.open[place].block))
    }

    /// Sets the point of the session at a place to a state.
    #[tactic(auto, using(crate::proofs::Rules::written_blocks))]
    pub fn set_point(&mut self, place: usize, state: &[u32])
        requires place { place < length self.old.table }
        requires long { length state.now ≡ self.old.parts }
        requires small { All (λ s. s < 2) state.now }
        ensures point { (session : Name) (entry : Entry) → StandsAt self.old.table place session entry
            → self.new ≡ record self.old {
              table = with_entry session (record entry { point = Some (bits_of state.now) }) self.old.table;
            } }
        ensures stands { (session : Name) (entry : Entry) → StandsAt self.old.table place session entry
            → StandsAt self.new.table place session (record entry { point = Some (bits_of state.now) }) }
        ensures stays { self.new ≡ record self.old { table = self.new.table } }
        ensures still { place < length self.new.table }
    {
        let block = &self.open[place].block;
        self.layout.set_point(self.pool.words_mut(block), state);
    }

    /// Closes all sessions.
    #[tactic(auto, using(crate::proofs::Rules::last_blocks))]
    pub fn finish(self) {
        let OpenSessions {
            layout: _,
            limit: _,
            mut pool,
            mut open,
        } = self;
        while let Some(Open { name: _, block }) = open.pop() {
            pool.give(block);
        }
        open.destroy_empty();
    }
}
