ghost use Rattle.std.specs.Prelude.{◌≡◌, ◌<◌, ◌≤◌, [], ◌∷◌, ◌++◌, length, OnOk, IfOk};
ghost use Rattle.text_rules.specs.declared.text_lines.TheConstants.{TEXT_LIMIT};
ghost use Rattle.adder_load.specs.Adders.{signal, input_line, gate_line, place_lines, adder_text};

use crate::Memory;
use std::alloc::Global;

/// The most places of an adder.
pub const PLACE_LIMIT: u32 = 800;

// The signal of a letter at a place: the place in four digits, and the letter.
pub(crate) fn signal(place: u32, letter: u8) -> [u8; 5]
    requires { place < 10000 }
    ensures { result ≡ signal place (letter ∷ []) }
{
    [
        b'0' + (place / 1000) as u8,
        b'0' + (place / 100 % 10) as u8,
        b'0' + (place / 10 % 10) as u8,
        b'0' + (place % 10) as u8,
        letter,
    ]
}

#[tactic(auto, using(crate::proofs::Texts::behind))]
fn add_input(text: &mut Vec<u8>, input: &[u8]) -> Result<(), Memory>
    ensures { OnOk result (text.new.items ≡ text.old.items ++ input_line input.now) }
{
    text.extend_from_slice(b"INPUT(")?;
    text.extend_from_slice(input)?;
    text.extend_from_slice(b")\n")
}

// Adds the line of a gate of two inputs.
fn add_gate(
    text: &mut Vec<u8>,
    output: &[u8],
    kind: &[u8],
    first: &[u8],
    second: &[u8],
) -> Result<(), Memory>
    ensures { OnOk result (text.new.items ≡ text.old.items ++ gate_line output.now kind.now first.now second.now) }
{
    text.extend_from_slice(output)?;
    text.extend_from_slice(b" = ")?;
    text.extend_from_slice(kind)?;
    text.extend_from_slice(b"(")?;
    text.extend_from_slice(first)?;
    text.extend_from_slice(b", ")?;
    text.extend_from_slice(second)?;
    text.extend_from_slice(b")\n")
}

fn add_place(text: &mut Vec<u8>, place: u32) -> Result<(), Memory>
    requires { place < PLACE_LIMIT }
    ensures { OnOk result (text.new.items ≡ text.old.items ++ place_lines place) }
{
    let a = signal(place, b'a');
    let b = signal(place, b'b');
    let c = signal(place, b'c');
    let x = signal(place, b'x');
    let s = signal(place, b's');
    let g = signal(place, b'g');
    let p = signal(place, b'p');
    add_input(text, &a)?;
    add_input(text, &b)?;
    add_gate(text, &x, b"XOR", &a, &b)?;
    add_gate(text, &s, b"XOR", &x, &c)?;
    add_gate(text, &g, b"AND", &a, &b)?;
    add_gate(text, &p, b"AND", &x, &c)?;
    add_gate(text, &signal(place + 1, b'c'), b"OR", &g, &p)
}

/// Returns the netlist of an adder of `places` places. The only error is lack of memory.
#[tactic(auto, using(crate::proofs::Rules::pieces_left))]
pub fn adder_text(alloc: Global, places: u32) -> Result<Vec<u8>, Memory>
    requires { places ≤ PLACE_LIMIT }
    ensures text { IfOk result (λ text. text.items ≡ adder_text places) }
    ensures short { IfOk result (λ text. length text.items ≤ TEXT_LIMIT) }
{
    let mut text = Vec::new(alloc);
    add_input(&mut text, &signal(0, b'c'))?;
    for place in 0..places {
        add_place(&mut text, place)?;
    }
    Ok(text)
}
