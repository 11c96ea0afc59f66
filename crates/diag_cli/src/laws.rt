//! Laws about runs, and about what is printed of netlists. Each is the contract of a function that does nothing.
ghost use Rattle.std.specs.Prelude.{◌≡◌, ℕ, Bool, List, Option, None, Ok, IsSome, length, replicate};
ghost use Rattle.state_rules.specs.Systems.{least_cost};
ghost use Rattle.device_model.specs.Devices.{Device};
ghost use Rattle.device_model.specs.Diagnosis.{device_system};
ghost use Rattle.bench_reader.specs.Netlists.{netlist};
ghost use Rattle.adder_load.specs.Adders.{adder_text};
ghost use Rattle.adder_load.specs.Readings.{adder_case};
ghost use Rattle.diag_edge.specs.Edge.{Holding, Reading, Writing};
ghost use Rattle.clause_encoder.specs.Clauses.{ClauseList};
ghost use Rattle.elimination_forests.specs.Forests.{Forest};
ghost use Rattle.device_files.specs.declared.status.Status.{Status};
ghost use Rattle.diag_cli.specs.Words.{Form};
ghost use Rattle.diag_cli.specs.Runs.{IsRun};
ghost use Rattle.diag_cli.specs.Details.{HasDetails};

/// States that `HasDetails` follows from `IsRun`: the status, what is read, and what is written.
pub fn runs_have_details()
    ensures { (choose : ClauseList → Option Forest) (form : Option Form) (held : List ℕ → Holding)
        (shelf new_shelf input new_input : Reading) (out new_out : Writing) (status : Status)
        → IsRun choose form held shelf new_shelf input new_input out new_out status
        → HasDetails choose form held shelf new_shelf input new_input out new_out status }
{}

/// States that while no part is held, no netlist contradicts what was seen: some state agrees, such as the one with all gates faulty.
pub fn netlists_agree()
    ensures { (text : List ℕ) (device : Device) (seen : List (Option Bool)) → netlist text ≡ Ok device → length seen ≡ length device.wires
        → IsSome (least_cost (device_system device) (record { seen = seen; held = replicate (length device.parts) None })) }
{}

/// States that a load never prints `inconsistent`: if the adder of `places` places gives a device, some state agrees with its readings.
pub fn loads_agree()
    ensures { (places : ℕ) (device : Device) → netlist (adder_text places) ≡ Ok device
        → IsSome (least_cost (device_system device) (adder_case device places)) }
{}
