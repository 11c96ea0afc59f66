ghost use Rattle.std.specs.Prelude.{◌≡◌, ◌+◌, ◌≤◌, length, map};
ghost use Rattle.std.specs.Option.{option_map};
ghost use Rattle.text_rules.specs.declared.text_lines.TheConstants.{TEXT_LIMIT};
ghost use Rattle.component_lang.specs.declared.design.Shape.{Shape as TypeOfParts};
ghost use Rattle.component_lang.specs.declared.design.Block.{Block as BlockOfParts};
ghost use Rattle.component_lang.specs.inner.NameSets.{names_in};

use crate::design::{Block, Design, Shape, Used, UsedKind};
use crate::fault::LangFault;
use crate::line_error::LineError;
use crate::words::{add_names, is_plain_name};
use device_model::{Name, Wires, gate_named};
use indexmap::IndexSet;
use std::alloc::Global;
use text_rules::Tokens;

/// The types and blocks that are closed above a line, and their names in the same order.
#[derive(Drop)]
pub struct Library<'a> {
    types: Vec<Shape>,
    type_names: IndexSet<&'a [u8]>,
    blocks: Vec<Block>,
    block_names: IndexSet<&'a [u8]>,
    ghost types_named: { names_in type_names ≡ map (λ (shape : TypeOfParts). shape.name) types.items },
    ghost blocks_named: { names_in block_names ≡ map (λ (block : BlockOfParts). block.name) blocks.items },
    ghost few: { length types.items + length blocks.items ≤ TEXT_LIMIT },
}

impl<'a> Library<'a> {
    ghost use Rattle.std.specs.Prelude.{◌<◌, ◌∷◌, ◌++◌, [], true, not, is_some, Ok};
    ghost use Rattle.text_rules.specs.Expected.{Fulfils};
    ghost use Rattle.text_rules.specs.Tokens.{tokens_left};
    ghost use Rattle.component_lang.specs.Designs.{is_plain_name, is_design, takes_args};
    ghost use Rattle.component_lang.specs.Kinds.{Outside, kind_named};
    ghost use Rattle.component_lang.specs.DesignLines.{part_of};
    ghost use Rattle.component_lang.specs.inner.LineFaults.{fault_told};
    ghost use Rattle.component_lang.specs.inner.Words.{new_ports};
    ghost use Rattle.component_lang.specs.inner.Views.{library_in};

    /// Returns the library above the first line: nothing is closed.
    pub fn new(alloc: Global) -> Self
        ensures { library_in result ≡ record { types = []; blocks = []; section = Outside } }
    {
        Library {
            types: Vec::new(alloc),
            type_names: IndexSet::new(alloc),
            blocks: Vec::new(alloc),
            block_names: IndexSet::new(alloc),
        }
    }

    /// Finds the gate, type or block of a name.
    pub fn kind_named(&self, name: &[u8]) -> Option<UsedKind>
        ensures { result ≡ kind_named (library_in self.now) name.now }
    {
        if let Some(gate) = gate_named(name) {
            return Some(UsedKind::Gate(gate));
        }
        if let Some(place) = self.type_names.get_index_of(&name) {
            return Some(UsedKind::Shape(place as u32));
        }
        let place = self.block_names.get_index_of(&name)?;
        Some(UsedKind::Block(place as u32))
    }

    /// Whether a kind takes `args` arguments. The last one of a gate is its output.
    pub fn takes_args(&self, kind: UsedKind, args: usize) -> bool
        ensures { result ≡ takes_args self.now.types.items self.now.blocks.items kind args }
    {
        match kind {
            UsedKind::Gate(kind) => kind.takes_inputs(args.saturating_sub(1)),
            UsedKind::Shape(place) => match self.types.get(place as usize) {
                Some(shape) => usize::from(shape.table.ports()) == args,
                None => false,
            },
            UsedKind::Block(place) => match self.blocks.get(place as usize) {
                Some(block) => block.ports as usize == args,
                None => false,
            },
        }
    }

    /// Makes a part from its name, its kind's name and the places of its wires, if all of these are known.
    pub fn part_of(
        &self,
        alloc: Global,
        name: &[u8],
        kind: &[u8],
        places: Option<Vec<u32>>,
    ) -> Result<Used, LineError>
        requires { is_plain_name name.now ≡ true }
        ensures { Fulfils (λ part. part) fault_told
            (part_of (library_in self.now) name.now (kind_named (library_in self.now) kind.now)
            (option_map (λ v. v.items) places)) result }
    {
        let Some(kind) = self.kind_named(kind) else {
            return Err(LineError::Fault(LangFault::Unknown));
        };
        let Some(places) = places else {
            return Err(LineError::Fault(LangFault::Unknown));
        };
        if !self.takes_args(kind, places.len()) {
            return Err(LineError::Fault(LangFault::Ports));
        }
        Ok(Used {
            name: Name::new(alloc, name)?,
            kind,
            args: Wires::of(places),
        })
    }

    /// Reads the ports that follow the name of a new type or block.
    pub fn ports_of(
        &self,
        alloc: Global,
        name: &[u8],
        words: Tokens<'a>,
    ) -> Result<IndexSet<&'a [u8]>, LineError>
        ensures { Fulfils names_in fault_told (new_ports (library_in self.now) name.now (tokens_left words.entry)) result }
    {
        if !is_plain_name(name) {
            return Err(LineError::Fault(LangFault::Name));
        }
        let mut ports = IndexSet::new(alloc);
        add_names(&mut ports, words)?;
        if self.kind_named(name).is_some() {
            return Err(LineError::Fault(LangFault::Twice));
        }
        Ok(ports)
    }

    /// Adds a type.
    pub fn add_type(&mut self, name: &'a [u8], shape: Shape) -> Result<(), LineError>
        requires named { shape.name ≡ name.now }
        requires free { not (is_some (kind_named (library_in self.old) name.now)) ≡ true }
        requires few { length self.old.types.items + length self.old.blocks.items < TEXT_LIMIT }
        ensures { Fulfils (λ _. library_in self.new) fault_told
            (Ok (record (library_in self.old) { types = self.old.types.items ++ shape ∷ [] })) result }
    {
        // If memory runs out, no name is in the list without its type.
        self.types.reserve(1)?;
        self.type_names.insert(name)?;
        self.types.push(shape)?;
        Ok(())
    }

    /// Adds a block.
    pub fn add_block(&mut self, name: &'a [u8], block: Block) -> Result<(), LineError>
        requires named { block.name ≡ name.now }
        requires free { not (is_some (kind_named (library_in self.old) name.now)) ≡ true }
        requires few { length self.old.types.items + length self.old.blocks.items < TEXT_LIMIT }
        ensures { Fulfils (λ _. library_in self.new) fault_told
            (Ok (record (library_in self.old) { blocks = self.old.blocks.items ++ block ∷ [] })) result }
    {
        // If memory runs out, no name is in the list without its block.
        self.blocks.reserve(1)?;
        self.block_names.insert(name)?;
        self.blocks.push(block)?;
        Ok(())
    }

    /// Returns the design with this top, after the end of the text.
    pub fn into_design(self, top: u32) -> Design
        requires { is_design (record { types = self.types.items; blocks = self.blocks.items; top = top }) ≡ true }
        ensures { result ≡ record { types = self.entry.types.items; blocks = self.entry.blocks.items; top = top } }
    {
        Design::of(self.types, self.blocks, top)
    }
}
