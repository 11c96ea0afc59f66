ghost use Rattle.std.specs.Prelude.{◌≡◌, ◌≤◌, ◌∷◌, length};
ghost use Rattle.std.specs.Option.{option_map};
ghost use Rattle.text_rules.specs.Expected.{Fulfils};
ghost use Rattle.text_rules.specs.Tokens.{tokens_left};
ghost use Rattle.text_rules.specs.declared.text_lines.TheConstants.{TEXT_LIMIT};
ghost use Rattle.component_lang.specs.Designs.{used_names};
ghost use Rattle.component_lang.specs.inner.LineFaults.{fault_told};
ghost use Rattle.component_lang.specs.inner.NameSets.{names_in};
ghost use Rattle.component_lang.specs.inner.Words.{places_among};

use crate::design::{Block, Used, Uses};
use crate::fault::LangFault;
use crate::kinds::Library;
use crate::line_error::LineError;
use crate::words::{add_name, add_names, is_plain_name, places_of};
use device_model::{Name, Names};
use indexmap::IndexSet;
use std::alloc::Global;
use text_rules::Tokens;

/// A block while its lines are read. Its ports are its first wires.
#[derive(Drop)]
pub struct OpenBlock<'a> {
    pub name: &'a [u8],
    ports: u32,
    wires: IndexSet<&'a [u8]>,
    parts: Vec<Used>,
    part_names: IndexSet<&'a [u8]>,
    ghost parts_named: { names_in part_names ≡ used_names parts.items },
    ghost few: { length wires.keys ≤ TEXT_LIMIT },
}

// Finds the places of a part's arguments, if each is a wire. The part, its kind and the arguments must all be names.
fn part_places<'a>(
    alloc: Global,
    wires: &IndexSet<&'a [u8]>,
    name: &[u8],
    kind: &[u8],
    args: Tokens<'a>,
) -> Result<Option<Vec<u32>>, LineError>
    requires { length wires.now.keys ≤ TEXT_LIMIT }
    ensures { Fulfils (option_map (λ v. v.items)) fault_told
        (places_among (name.now ∷ kind.now ∷ tokens_left args.entry) (names_in wires.now) (tokens_left args.entry)) result }
{
    if !is_plain_name(name) || !is_plain_name(kind) {
        return Err(LineError::Fault(LangFault::Name));
    }
    places_of(alloc, wires, args)
}

impl<'a> OpenBlock<'a> {
    ghost use Rattle.std.specs.Prelude.{◌+◌, ◌<◌, [], true, Ok};
    ghost use Rattle.std.specs.List.{list_all};
    ghost use Rattle.component_lang.specs.Designs.{is_plain_name};
    ghost use Rattle.component_lang.specs.Kinds.{Reader, InBlock};
    ghost use Rattle.component_lang.specs.DesignLines.{at, wire_line, part_line};
    ghost use Rattle.component_lang.specs.inner.Views.{block_in, library_in};

    /// Makes a block without parts, whose wires are its ports.
    pub fn new(alloc: Global, name: &'a [u8], ports: IndexSet<&'a [u8]>) -> Self
        requires { length ports.keys ≤ TEXT_LIMIT }
        ensures { block_in result ≡ record {
          name = name.now;
          ports = length (names_in ports.entry);
          wires = names_in ports.entry;
          parts = [];
        } }
    {
        OpenBlock {
            name,
            ports: ports.len() as u32,
            wires: ports,
            parts: Vec::new(alloc),
            part_names: IndexSet::new(alloc),
        }
    }

    /// Adds the wires that a line names.
    #[tactic(auto, using(crate::proofs::Rules::wires_within))]
    pub fn with_wires(
        mut self,
        first: &'a [u8],
        others: Tokens<'a>,
    ) -> Result<OpenBlock<'a>, LineError>
        requires { length self.wires.keys + 1 + length (tokens_left others) ≤ TEXT_LIMIT }
        ensures { (reader : Reader) → Fulfils (λ block. at reader (InBlock (block_in block))) fault_told
            (wire_line reader (block_in self.entry) (first.now ∷ tokens_left others.entry)) result }
    {
        let is_new = add_name(&mut self.wires, first)?;
        add_names(&mut self.wires, others)?;
        if is_new {
            Ok(self)
        } else {
            Err(LineError::Fault(LangFault::Twice))
        }
    }

    /// Adds a part.
    pub fn with_part(
        mut self,
        alloc: Global,
        library: &Library<'a>,
        name: &'a [u8],
        kind: &[u8],
        args: Tokens<'a>,
    ) -> Result<OpenBlock<'a>, LineError>
        ensures { Fulfils (λ block. at (library_in library.now) (InBlock (block_in block))) fault_told
            (part_line (library_in library.now) (block_in self.entry) name.now kind.now (tokens_left args.entry)) result }
    {
        let places = part_places(alloc, &self.wires, name, kind, args)?;
        if !self.part_names.insert(name)? {
            return Err(LineError::Fault(LangFault::Twice));
        }
        let part = library.part_of(alloc, name, kind, places)?;
        self.parts.push(part)?;
        Ok(self)
    }

    /// Returns the block after its last line.
    pub fn close(self, alloc: Global) -> Result<Block, LineError>
        requires named { is_plain_name self.name.now ≡ true }
        requires wires { list_all is_plain_name (names_in self.wires) ≡ true }
        ensures { Fulfils (λ block. block) fault_told (Ok (block_in self.entry)) result }
    {
        let mut wires = Vec::new(alloc);
        for wire in self.wires.iter() {
            wires.push(Name::new(alloc, wire)?)?;
        }
        Ok(Block {
            name: Name::new(alloc, self.name)?,
            ports: self.ports,
            wires: Names::of(wires),
            parts: Uses::of(self.parts),
        })
    }
}
