ghost use Rattle.std.specs.Prelude.{◌≡◌, ◌≤◌, ◌+◌, ◌<◌, ◌∷◌, length, true};
ghost use Rattle.text_rules.specs.Expected.{Fulfils};
ghost use Rattle.text_rules.specs.Tokens.{tokens_left};
ghost use Rattle.device_model.specs.TruthTable.{has_few_ports};
ghost use Rattle.component_lang.specs.Kinds.{InType, AfterTop};
ghost use Rattle.component_lang.specs.DesignLines.{at, type_line, top_line, outside, in_type, in_block, after_line};
ghost use Rattle.component_lang.specs.Reading.{design};
ghost use Rattle.component_lang.specs.Faults.{told};
ghost use Rattle.component_lang.specs.inner.LineFaults.{fault_told};
ghost use Rattle.component_lang.specs.inner.Views.{library_in, open_type_in, block_in};
ghost use Rattle.component_lang.specs.inner.Sections.{reader_in};
ghost use Rattle.component_lang.specs.inner.Sound.{is_sound_type, is_sound_block, is_sound, reader_size};

use crate::blocks::OpenBlock;
use crate::design::{Design, UsedKind};
use crate::fault::{LangError, LangFault};
use crate::kinds::Library;
use crate::line_error::LineError;
use crate::types::OpenType;
use crate::words::{is_plain_name, spells};
use device_model::TYPE_PORT_LIMIT;
use std::alloc::Global;
use text_rules::{Lines, TEXT_LIMIT, Tokens, uncommented};

/// The place of a line.
#[derive(Drop)]
enum Section<'a> {
    Outside,
    InType(OpenType<'a>),
    InBlock(OpenBlock<'a>),
    /// The block of this place is the top.
    AfterTop(u32),
}

// Whether a type may have `ports` ports.
fn has_few_ports(ports: usize) -> bool
    ensures { result ≡ has_few_ports ports }
{
    (1..=usize::from(TYPE_PORT_LIMIT)).contains(&ports)
}

// Reads `type NAME PORT ..`.
#[tactic(auto, using(crate::proofs::Rules::ports_within))]
fn start_type<'a>(
    alloc: Global,
    library: &Library<'a>,
    name: &'a [u8],
    words: Tokens<'a>,
) -> Result<OpenType<'a>, LineError>
    ensures { Fulfils (λ open_type. at (library_in library.now) (InType (open_type_in open_type))) fault_told
        (type_line (library_in library.now) name.now (tokens_left words.entry)) result }
{
    let ports = library.ports_of(alloc, name, words)?.len();
    if !has_few_ports(ports) {
        return Err(LineError::Fault(LangFault::Ports));
    }
    Ok(OpenType {
        name,
        ports: ports as u8,
        ok: 0,
        bad: None,
        cost: None,
    })
}

// Reads `top NAME`.
fn top_of(library: &Library<'_>, name: &[u8]) -> Result<u32, LineError>
    ensures { Fulfils (λ top. at (library_in library.now) (AfterTop top)) fault_told
        (top_line (library_in library.now) name.now) result }
{
    if !is_plain_name(name) {
        return Err(LineError::Fault(LangFault::Name));
    }
    match library.kind_named(name) {
        Some(UsedKind::Block(place)) => Ok(place),
        _ => Err(LineError::Fault(LangFault::Unknown)),
    }
}

// Reads a line outside of types and blocks, from its first word and the rest.
#[tactic(auto, using(crate::proofs::Rules::ports_within))]
fn outside<'a>(
    alloc: Global,
    library: &Library<'a>,
    word: &[u8],
    mut words: Tokens<'a>,
) -> Result<Section<'a>, LineError>
    requires { length (tokens_left words) ≤ TEXT_LIMIT }
    ensures { Fulfils (reader_in library.now) fault_told
        (outside (library_in library.now) (word.now ∷ tokens_left words.entry)) result }
{
    let Some(name) = words.next() else {
        return Err(LineError::Fault(LangFault::Line));
    };
    if spells(word, b"type") {
        Ok(Section::InType(start_type(alloc, library, name, words)?))
    } else if spells(word, b"block") {
        let ports = library.ports_of(alloc, name, words)?;
        Ok(Section::InBlock(OpenBlock::new(alloc, name, ports)))
    } else if spells(word, b"top") && words.next().is_none() {
        Ok(Section::AfterTop(top_of(library, name)?))
    } else {
        Err(LineError::Fault(LangFault::Line))
    }
}

// Reads a line in a type, from its first word and the rest.
fn in_type<'a>(
    alloc: Global,
    library: &mut Library<'a>,
    open_type: OpenType<'a>,
    word: &[u8],
    mut words: Tokens<'_>,
) -> Result<Section<'a>, LineError>
    requires sound { is_sound_type (library_in library.old) (open_type_in open_type) ≡ true }
    requires few { reader_size (library_in library.old) < TEXT_LIMIT }
    ensures { Fulfils (reader_in library.new) fault_told
        (in_type (library_in library.old) (open_type_in open_type.entry) (word.now ∷ tokens_left words.entry)) result }
{
    let Some(value) = words.next() else {
        if !spells(word, b"end") {
            return Err(LineError::Fault(LangFault::Line));
        }
        library.add_type(open_type.name, open_type.close(alloc)?)?;
        return Ok(Section::Outside);
    };
    if words.next().is_some() {
        Err(LineError::Fault(LangFault::Line))
    } else if spells(word, b"ok") {
        Ok(Section::InType(open_type.with_ok(value)?))
    } else if spells(word, b"bad") {
        Ok(Section::InType(open_type.with_bad(value)?))
    } else if spells(word, b"cost") {
        Ok(Section::InType(open_type.with_cost(value)?))
    } else {
        Err(LineError::Fault(LangFault::Line))
    }
}

// Reads a line in a block, from its first word and the rest.
fn in_block<'a>(
    alloc: Global,
    library: &mut Library<'a>,
    block: OpenBlock<'a>,
    word: &[u8],
    mut words: Tokens<'a>,
) -> Result<Section<'a>, LineError>
    requires sound { is_sound_block (library_in library.old) (block_in block) ≡ true }
    requires few { reader_size (library_in library.old) < TEXT_LIMIT }
    requires room { length block.wires.keys + length (tokens_left words) ≤ TEXT_LIMIT }
    ensures { Fulfils (reader_in library.new) fault_told
        (in_block (library_in library.old) (block_in block.entry) (word.now ∷ tokens_left words.entry)) result }
{
    let Some(name) = words.next() else {
        if !spells(word, b"end") {
            return Err(LineError::Fault(LangFault::Line));
        }
        library.add_block(block.name, block.close(alloc)?)?;
        return Ok(Section::Outside);
    };
    if spells(word, b"wire") {
        return Ok(Section::InBlock(block.with_wires(name, words)?));
    }
    match words.next() {
        Some(kind) if spells(word, b"part") => {
            let block = block.with_part(alloc, library, name, kind, words)?;
            Ok(Section::InBlock(block))
        }
        _ => Err(LineError::Fault(LangFault::Line)),
    }
}

// Reads a line and returns the place of the next one.
#[tactic(auto, using(crate::proofs::Rules::words_within))]
fn after_line<'a>(
    alloc: Global,
    library: &mut Library<'a>,
    section: Section<'a>,
    line: &'a [u8],
) -> Result<Section<'a>, LineError>
    requires sound { is_sound (reader_in library.old section) ≡ true }
    requires few { reader_size (reader_in library.old section) + length line.now ≤ TEXT_LIMIT }
    ensures { Fulfils (reader_in library.new) fault_told
        (after_line (reader_in library.old section.entry) line.now) result }
{
    let mut words = Tokens::words(uncommented(line));
    let Some(word) = words.next() else {
        return Ok(section);
    };
    match section {
        Section::Outside => outside(alloc, library, word, words),
        Section::InType(open_type) => in_type(alloc, library, open_type, word, words),
        Section::InBlock(block) => in_block(alloc, library, block, word, words),
        Section::AfterTop(_) => Err(LineError::Fault(LangFault::AfterTop)),
    }
}

/// Reads the design of a text of at most 16,777,216 bytes.
///
/// Memory may run out at any time; any other error is the first fault of the text.
#[tactic(auto, using(crate::proofs::Rules::lines_within))]
pub fn read_lang(alloc: Global, text: &[u8]) -> Result<Design, LangError>
    requires { length text.now ≤ TEXT_LIMIT }
    ensures read { Fulfils (λ made. made) told (design text.now) result }
{
    let mut library = Library::new(alloc);
    let mut section = Section::Outside;
    let mut number = 0;
    for line in Lines::new(text) {
        number += 1;
        section = match after_line(alloc, &mut library, section, line) {
            Ok(next) => next,
            Err(error) => return Err(error.in_line(number)),
        };
    }
    match section {
        Section::AfterTop(top) => Ok(library.into_design(top)),
        _ => Err(LangError::Bad {
            line: 0,
            what: LangFault::NoTop,
        }),
    }
}
