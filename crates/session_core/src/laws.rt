//! Laws about what a service writes. Each is the contract of a function that does nothing.
ghost use Rattle.std.specs.Prelude.{◌≡◌, ℕ, List, Option, Some};
ghost use Rattle.session_rules.specs.Sessions.{Table};
ghost use Rattle.session_rules.specs.Moves.{script_moves};
ghost use Rattle.session_rules.specs.Alone.{AreAnsweredAlone};
ghost use Rattle.session_rules.specs.Carrying.{Makes};
ghost use Rattle.session_rules.specs.CaseSizes.{HasCasesOf};
ghost use Rattle.session_core.specs.Services.{Shown, IsSound, SpellReplies, moves_of};

/// States that a service writes one text: if the moves of a script were made twice, from one table and after the same bytes, they left the
/// same bytes and the same table.
pub fn one_text()
    ensures { (shown : Shown) → IsSound shown → (old new other : Table) (lines : List (List ℕ)) (bytes : List ℕ) (a b : Option (List ℕ))
        → Makes old new (script_moves (moves_of shown) old lines) (Some bytes) a
        → Makes old other (script_moves (moves_of shown) old lines) (Some bytes) b
        → (a ≡ b) × (new ≡ other) }
{}

/// States that a session has, byte for byte, the answers that it has alone: wherever it opens among some lines, its own lines from there to
/// its end have the answers that they have with room for one session and no other line before, between or after them.
#[tactic(auto, using(session_rules::proofs::Alone::answered_alone))]
pub fn written_alone()
    ensures { (shown : Shown) (table : Table) (lines : List (List ℕ))
        → AreAnsweredAlone shown.system shown.limit table lines }
{}

/// States that what a service writes spells the replies of its system: the moves of a script, from a table whose cases fit the system, are
/// moves over the system, and if they break off, so do those.
#[tactic(auto, using(crate::proofs::WrittenReplies::spell_replies))]
pub fn spells_replies()
    ensures { (shown : Shown) → IsSound shown → (table : Table) → HasCasesOf shown.system table
        → (lines : List (List ℕ)) → SpellReplies shown table lines }
{}
