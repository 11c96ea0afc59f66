ghost use Rattle.std.specs.Prelude.{◌≡◌, true};
ghost use Rattle.component_lang.specs.Designs.{is_design};

use device_model::{Kind, Name, Names, Table, Wires};
use std::marker::Model;

/// A type of parts.
#[derive(Debug, Drop)]
pub struct Shape {
    pub name: Name,
    pub table: Table,
}

/// The kind of a part of a block: a gate, or the place of its type or block in the design. In a design no gate has the kind
/// `Table`, since that takes no number of arguments.
#[derive(Clone, Copy, Debug, PartialEq, Eq)]
pub enum UsedKind {
    Gate(Kind),
    Shape(u32),
    Block(u32),
}

/// A part of a block. Its arguments are the places of wires of the block.
#[derive(Debug, Drop)]
pub struct Used {
    pub name: Name,
    pub kind: UsedKind,
    pub args: Wires,
}

/// The parts of a block, in the order of the text.
#[derive(Debug, Drop)]
pub struct Uses {
    items: Vec<Used>,
}

impl Model for Uses {
    ghost use Rattle.std.specs.Prelude.{List};
    ghost use Rattle.component_lang.specs.declared.design.Used.{Used as Part};

    ghost Value = { List Part };

    ghost view = { λ u. u.items.items };
}

impl Uses {
    /// Wraps a vector of parts.
    pub fn of(items: Vec<Used>) -> Uses
        ensures { result ≡ items.items }
    {
        Uses { items }
    }

    /// Returns the parts, in their order in the block.
    pub fn as_slice(&self) -> &[Used]
        ensures { result.now ≡ self.now }
    {
        self.items.as_slice()
    }
}

/// A block. Its ports are its first wires.
#[derive(Debug, Drop)]
pub struct Block {
    pub name: Name,
    pub ports: u32,
    pub wires: Names,
    pub parts: Uses,
}

/// Types, and blocks that use only blocks before them. One block is the top.
#[derive(Debug, Drop)]
pub struct Design {
    types: Vec<Shape>,
    blocks: Vec<Block>,
    top: u32,
}

impl Model for Design {
    ghost use Rattle.std.specs.Prelude.{◌≡◌, true};
    ghost use Rattle.component_lang.specs.Designs.{Design as Shown, is_design};

    ghost Value = { Shown };

    ghost view = { λ d. record { types = d.types.items; blocks = d.blocks.items; top = d.top } };

    ghost invariant = { λ d. is_design (record { types = d.types.items; blocks = d.blocks.items; top = d.top }) ≡ true };
}

impl Design {
    pub(crate) fn of(types: Vec<Shape>, blocks: Vec<Block>, top: u32) -> Design
        requires { is_design (record { types = types.items; blocks = blocks.items; top = top }) ≡ true }
        ensures { result ≡ record { types = types.items; blocks = blocks.items; top = top } }
    {
        Design { types, blocks, top }
    }

    /// Returns the types, in the order of the text.
    pub fn types(&self) -> &[Shape]
        ensures { result.now ≡ self.now.types }
    {
        self.types.as_slice()
    }

    /// Returns the blocks, in the order of the text. Each uses only blocks before it.
    pub fn blocks(&self) -> &[Block]
        ensures blocks { result.now ≡ self.now.blocks }
        ensures valid { is_design self.now ≡ true }
    {
        self.blocks.as_slice()
    }

    /// Returns the place of the top block.
    pub fn top(&self) -> u32
        ensures { result ≡ self.now.top }
    {
        self.top
    }
}
