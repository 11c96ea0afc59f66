ghost use Rattle.std.specs.Prelude.{◌≡◌, ◌+◌, ◌<◌, ◌≤◌, [], ◌∷◌, length, replicate, All};
ghost use Rattle.session_rules.specs.CaseEvidence.{IsEvidence};
ghost use Rattle.session_rules.specs.GraphSystems.{case_evidence};
ghost use Rattle.adder_load.specs.Readings.{readings_at, adder_case};
ghost use Rattle.adder_load.specs.inner.Noting.{Notes};

use crate::adders::{PLACE_LIMIT, signal};
use conditioner::fix;
use device_model::Device;

// Notes that a wire was seen, if there is such a wire.
fn note(evidence: &mut [u32], device: &Device, name: &[u8], bit: bool)
    requires evidence { IsEvidence (length device.now.parts) (length device.now.wires) (length evidence.old) evidence.old }
    ensures { Notes device.now evidence.old evidence.new ((name.now, bit) ∷ []) }
{
    if let Some(wire) = device.find_wire(name) {
        let parts = device.parts().len() as u32;
        fix(evidence, parts + wire + 1, bit);
    }
}

fn note_place(evidence: &mut [u32], device: &Device, place: u32)
    requires evidence { IsEvidence (length device.now.parts) (length device.now.wires) (length evidence.old) evidence.old }
    requires place { place < PLACE_LIMIT }
    ensures { Notes device.now evidence.old evidence.new (readings_at place) }
{
    note(evidence, device, &signal(place, b'a'), false);
    note(evidence, device, &signal(place, b'b'), false);
    note(
        evidence,
        device,
        &signal(place, b's'),
        place.is_multiple_of(16),
    );
}

/// Notes what was seen of the adder of `places` places in evidence that is all 0. The evidence is on the parts of its device, on its wires,
/// and on inner variables.
#[tactic(auto, using(crate::proofs::Rules::all_readings))]
pub fn note_readings(evidence: &mut [u32], device: &Device, places: u32)
    requires none { evidence.old ≡ replicate (length evidence.old) 0 }
    requires room { length device.now.parts + length device.now.wires ≤ length evidence.old }
    requires places { places ≤ PLACE_LIMIT }
    ensures case { evidence.new ≡ case_evidence (length evidence.old) (adder_case device.now places) }
    ensures long { length evidence.new ≡ length evidence.old }
    ensures evidence { All (λ w. w < 3) evidence.new }
{
    note(evidence, device, &signal(0, b'c'), false);
    note(evidence, device, &signal(places, b'c'), false);
    for place in 0..places {
        note_place(evidence, device, place);
    }
}
