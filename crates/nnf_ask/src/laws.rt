//! A law about the definitions of this crate. It is the contract of a function that does nothing.
ghost use Rattle.std.specs.Prelude.{◌≡◌, ℕ, List, length, Ok};
ghost use Rattle.state_rules.specs.Cases.{Case};
ghost use Rattle.state_rules.specs.Ranking.{plain_costs};
ghost use Rattle.state_rules.specs.Graphs.{Graph};
ghost use Rattle.nnf_text.specs.GraphTexts.{parsed};
ghost use Rattle.device_model.specs.Devices.{Device, part_costs};
ghost use Rattle.device_model.specs.Diagnosis.{device_system};
ghost use Rattle.session_rules.specs.CaseSizes.{IsCaseOf};
ghost use Rattle.session_rules.specs.Items.{Whole};
ghost use Rattle.session_rules.specs.Spelling.{Spelled};
ghost use Rattle.nnf_ask.specs.Asking.{asked_system};
ghost use Rattle.nnf_ask.specs.Alike.{AreAlike, case_among};

/// A text that spells the whole graph of a device answers for the device, if every failure costs 1. Asked with as many parts
/// as the device has, its graph has for each case of the device the same consistent states, the same least cost, the same
/// diagnoses, and the same diagnoses after any point, position by position.
///
/// The variables are the parts, then the wires, then others that are not in the device and that a case leaves open.
pub fn answers_for_device()
    ensures case { (device : Device) (vars most : ℕ) (text : List ℕ) → Spelled (Whole device vars most) text
        → (graph : Graph) → parsed text ≡ Ok graph
        → (known : Case) → IsCaseOf (device_system device) known
        → IsCaseOf (asked_system (length device.parts) graph) (case_among graph.vars known) }
    ensures alike { (device : Device) (vars most : ℕ) (text : List ℕ) → Spelled (Whole device vars most) text
        → (graph : Graph) → parsed text ≡ Ok graph
        → part_costs device ≡ plain_costs (length device.parts)
        → (known : Case) → IsCaseOf (device_system device) known
        → AreAlike (asked_system (length device.parts) graph) (device_system device) (case_among graph.vars known) known }
{}
