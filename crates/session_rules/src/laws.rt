//! Laws about the definitions of this crate. Each is the contract of a function that does nothing.
ghost use Rattle.std.specs.Prelude.{◌≡◌, ℕ, Bool, List, length};
ghost use Rattle.text_rules.specs.Names.{Name};
ghost use Rattle.state_rules.specs.Cases.{Case};
ghost use Rattle.state_rules.specs.Systems.{System, with_extras};
ghost use Rattle.state_rules.specs.declared.extras.Extras.{Extras};
ghost use Rattle.state_rules.specs.Graphs.{Graph};
ghost use Rattle.state_rules.specs.GraphsOver.{IsGraphOver};
ghost use Rattle.device_model.specs.Devices.{Device};
ghost use Rattle.device_model.specs.Diagnosis.{fitting_system, device_system};
ghost use Rattle.script_lang.specs.Script.{Line};
ghost use Rattle.session_rules.specs.Spelling.{IsGraphOf};
ghost use Rattle.session_rules.specs.Alone.{AreAnsweredAlone, IsItsOwn};
ghost use Rattle.session_rules.specs.CaseSizes.{IsCaseOf, HasCasesOf};
ghost use Rattle.session_rules.specs.GraphSystems.{graph_system, compiled_system};
ghost use Rattle.session_rules.specs.Moves.{line_moves, script_moves};
ghost use Rattle.session_rules.specs.Sessions.{Table, replies};

/// States that each session is answered as if it were alone: wherever it opens among some lines, its own lines from there to its end have
/// the answers that they have with no other line before, between or after them.
pub fn answered_alone()
    ensures { (system : System) (limit : ℕ) (table : Table) (lines : List (List ℕ))
        → AreAnsweredAlone system limit table lines }
{}

/// States that the answer to a line, and what becomes of the session that it names, depend on that session's entry, and for an `open` on
/// whether there is room. The line changes no other session.
pub fn is_its_own()
    ensures { (system : System) (limit : ℕ) (line : Line) → IsItsOwn system limit line }
{}

/// States that over a graph that is true exactly if bits of wires fit a health state, a case with a place for each wire and each part has
/// the consistent states of what fits. So over the graph of a device it has those that it has over the device.
pub fn same_states()
    ensures fitting { (parts wires : List Name) (costs : List ℕ) (fits_by : List Bool → List Bool → Bool) (graph : Graph)
        → IsGraphOver (length parts) (length wires) fits_by graph → (known : Case)
        → IsCaseOf (fitting_system parts wires costs fits_by) known
        → (graph_system parts wires costs graph).consistent known
        ≡ (fitting_system parts wires costs fits_by).consistent known }
    ensures device { (device : Device) (graph : Graph) → IsGraphOf device graph → (known : Case)
        → IsCaseOf (device_system device) known
        → (compiled_system device graph).consistent known ≡ (device_system device).consistent known }
{}

/// States that over such a graph every script has the replies that it has over what fits, move by move, whatever the extras are, from any
/// table whose cases have a place for each wire and each part (such as the empty one). So over the graph of a device it has those that it
/// has over the device.
pub fn graph_replies()
    ensures fitting { (parts wires : List Name) (costs : List ℕ) (fits_by : List Bool → List Bool → Bool) (graph : Graph)
        → IsGraphOver (length parts) (length wires) fits_by graph → (extras : Extras) (limit : ℕ) (table : Table)
        → HasCasesOf (fitting_system parts wires costs fits_by) table → (lines : List (List ℕ))
        → replies (with_extras extras (graph_system parts wires costs graph)) limit table lines
        ≡ replies (with_extras extras (fitting_system parts wires costs fits_by)) limit table lines }
    ensures fitting_moves { (parts wires : List Name) (costs : List ℕ) (fits_by : List Bool → List Bool → Bool) (graph : Graph)
        → IsGraphOver (length parts) (length wires) fits_by graph → (extras : Extras) (limit : ℕ) (table : Table)
        → HasCasesOf (fitting_system parts wires costs fits_by) table → (lines : List (List ℕ))
        → script_moves (line_moves (with_extras extras (graph_system parts wires costs graph)) limit) table lines
        ≡ script_moves (line_moves (with_extras extras (fitting_system parts wires costs fits_by)) limit) table lines }
    ensures replies { (device : Device) (graph : Graph) → IsGraphOf device graph → (extras : Extras) (limit : ℕ) (table : Table)
        → HasCasesOf (device_system device) table → (lines : List (List ℕ))
        → replies (with_extras extras (compiled_system device graph)) limit table lines
        ≡ replies (with_extras extras (device_system device)) limit table lines }
    ensures moves { (device : Device) (graph : Graph) → IsGraphOf device graph → (extras : Extras) (limit : ℕ) (table : Table)
        → HasCasesOf (device_system device) table → (lines : List (List ℕ))
        → script_moves (line_moves (with_extras extras (compiled_system device graph)) limit) table lines
        ≡ script_moves (line_moves (with_extras extras (device_system device)) limit) table lines }
{}
