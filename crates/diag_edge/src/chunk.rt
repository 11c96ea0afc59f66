//! Bytes that are gathered before they are put.
ghost use Rattle.std.specs.Prelude.{◌≡◌, ◌⊎◌, ◌<◌, ◌≤◌, ◌+◌, ◌++◌, ◌∷◌, [], length, map, take, OnOk, OnErr};
ghost use Rattle.std.specs.List.{flat_map};
ghost use Rattle.text_rules.specs.Tokens.{spaced};
ghost use Rattle.diag_edge.specs.Edge.{HasCause, Puts};
ghost use Rattle.diag_edge.specs.Adding.{Adds};

use crate::{Sink, WriteFailed};
use itoa::{Buffer, Integer};
use std::marker::Model;

/// The most bytes that a chunk gathers.
const CHUNK_LIMIT: usize = 4096;

/// Gathers bytes, so that a sink gets few calls.
///
/// A chunk that is dropped does not put what it still holds.
#[derive(Drop)]
pub struct Chunk {
    bytes: [u8; CHUNK_LIMIT],
    len: usize,
}

impl Model for Chunk {
    ghost use Rattle.std.specs.Prelude.{ℕ, List, ◌≤◌, take};
    ghost use Rattle.diag_edge.specs.declared.chunk.TheConstants.{CHUNK_LIMIT};

    ghost Value = { List ℕ };

    ghost view = { λ c. take c.len c.bytes };

    ghost invariant = { λ c. c.len ≤ CHUNK_LIMIT };
}

impl Chunk {
    /// Returns an empty chunk.
    pub fn new() -> Chunk
        ensures { result ≡ [] }
    {
        Chunk {
            bytes: [0; CHUNK_LIMIT],
            len: 0,
        }
    }

    /// Puts what is gathered.
    pub fn put<O: Sink>(&self, out: &mut O) -> Result<(), WriteFailed>
        ensures bytes { Puts (O.got out.old) (O.got out.new) result self.now }
        ensures cause { HasCause (O.faults out.old) (O.faults out.new) result }
    {
        out.put(&self.bytes[..self.len])
    }

    /// Adds a text. If there is no room for both, it first puts what was gathered. After a failed write that is still gathered, or all of
    /// it was put and nothing is gathered.
    pub fn add<O: Sink>(&mut self, out: &mut O, text: &[u8]) -> Result<(), WriteFailed>
        ensures bytes { Adds (O.got out.old) (O.got out.new) self.old self.new result text.now }
        ensures err { OnErr result ((self.new ≡ self.old) ⊎ (self.new ≡ [])) }
        ensures cause { HasCause (O.faults out.old) (O.faults out.new) result }
    {
        if text.len() > CHUNK_LIMIT {
            return self.pass_on(out, text);
        }
        self.make_room(out, text.len())?;
        self.push(text);
        Ok(())
    }

    /// Adds a number in decimal digits.
    pub fn add_number<O: Sink, I: Integer>(
        &mut self,
        out: &mut O,
        number: I,
    ) -> Result<(), WriteFailed>
        ensures bytes { Adds (O.got out.old) (O.got out.new) self.old self.new result
            (I.text number) }
        ensures cause { HasCause (O.faults out.old) (O.faults out.new) result }
    {
        self.add(out, Buffer::new().format(number).as_bytes())
    }

    /// Adds a space and a word.
    pub fn add_word<O: Sink>(&mut self, out: &mut O, word: &[u8]) -> Result<(), WriteFailed>
        ensures bytes { Adds (O.got out.old) (O.got out.new) self.old self.new result
            (32 ∷ word.now) }
        ensures cause { HasCause (O.faults out.old) (O.faults out.new) result }
    {
        if word.len() >= CHUNK_LIMIT {
            return self.add_apart(out, word);
        }
        // Makes room for both at once, since most words are short numbers.
        self.make_room(out, word.len() + 1)?;
        self.push_byte(b' ');
        self.push(word);
        Ok(())
    }

    // Adds a space, and then a word that has no room beside it.
    #[tactic(auto, using(crate::proofs::Added::adds_on))]
    fn add_apart<O: Sink>(&mut self, out: &mut O, word: &[u8]) -> Result<(), WriteFailed>
        ensures bytes { Adds (O.got out.old) (O.got out.new) self.old self.new result
            (32 ∷ word.now) }
        ensures cause { HasCause (O.faults out.old) (O.faults out.new) result }
    {
        self.add(out, b" ")?;
        self.add(out, word)
    }

    /// Adds a space and a number in decimal digits.
    pub fn add_count<O: Sink, I: Integer>(
        &mut self,
        out: &mut O,
        number: I,
    ) -> Result<(), WriteFailed>
        ensures bytes { Adds (O.got out.old) (O.got out.new) self.old self.new result
            (32 ∷ I.text number) }
        ensures cause { HasCause (O.faults out.old) (O.faults out.new) result }
    {
        self.add_word(out, Buffer::new().format(number).as_bytes())
    }

    /// Adds words, each after a space.
    #[tactic(auto, using(crate::proofs::Added::adds_each))]
    pub fn add_words<O: Sink>(&mut self, out: &mut O, words: &[&[u8]]) -> Result<(), WriteFailed>
        ensures bytes { Adds (O.got out.old) (O.got out.new) self.old self.new result
            (flat_map (λ word. 32 ∷ word.now) words.now) }
        ensures cause { HasCause (O.faults out.old) (O.faults out.new) result }
    {
        for word in words {
            self.add_word(out, word)?;
        }
        Ok(())
    }

    /// Adds words, each after a space, and a line feed.
    #[tactic(auto, using(crate::proofs::Added::adds_on))]
    pub fn end_line<O: Sink>(&mut self, out: &mut O, words: &[&[u8]]) -> Result<(), WriteFailed>
        ensures bytes { Adds (O.got out.old) (O.got out.new) self.old self.new result
            (flat_map (λ word. 32 ∷ word.now) words.now ++ 10 ∷ []) }
        ensures cause { HasCause (O.faults out.old) (O.faults out.new) result }
    {
        self.add_words(out, words)?;
        self.add(out, b"\n")
    }

    // Puts what is gathered if it leaves no room for `needed` bytes.
    fn make_room<O: Sink>(&mut self, out: &mut O, needed: usize) -> Result<(), WriteFailed>
        requires { needed ≤ CHUNK_LIMIT }
        ensures bytes { Adds (O.got out.old) (O.got out.new) self.old self.new result [] }
        ensures room { OnOk result (length self.new + needed ≤ CHUNK_LIMIT) }
        ensures err { OnErr result (self.new ≡ self.old) }
        ensures cause { HasCause (O.faults out.old) (O.faults out.new) result }
    {
        if needed > CHUNK_LIMIT - self.len {
            self.put(out)?;
            self.len = 0;
        }
        Ok(())
    }

    // Puts what is gathered, and then a text too long for a chunk.
    fn pass_on<O: Sink>(&mut self, out: &mut O, text: &[u8]) -> Result<(), WriteFailed>
        ensures bytes { Adds (O.got out.old) (O.got out.new) self.old self.new result text.now }
        ensures err { OnErr result ((self.new ≡ self.old) ⊎ (self.new ≡ [])) }
        ensures cause { HasCause (O.faults out.old) (O.faults out.new) result }
    {
        self.put(out)?;
        self.len = 0;
        out.put(text)
    }

    fn push_byte(&mut self, byte: u8)
        requires { length self.old < CHUNK_LIMIT }
        ensures { self.new ≡ self.old ++ byte ∷ [] }
    {
        self.bytes[self.len] = byte;
        self.len += 1;
    }

    fn push(&mut self, text: &[u8])
        requires { length self.old + length text.now ≤ CHUNK_LIMIT }
        ensures { self.new ≡ self.old ++ text.now }
    {
        let end = self.len + text.len();
        write_at(&mut self.bytes, self.len, text);
        self.len = end;
    }
}

// Writes a text after the first `len` bytes.
fn write_at(bytes: &mut [u8], len: usize, text: &[u8])
    requires { len + length text.now ≤ length bytes.old }
    ensures { take (len + length text.now) bytes.new ≡ take len bytes.old ++ text.now }
{
    bytes[len..len + text.len()].copy_from_slice(text);
}

/// Writes a line: words joined by single spaces, and a line feed. A line that a chunk has room for is one call.
pub fn put_line<O: Sink>(out: &mut O, words: &[&[u8]]) -> Result<(), WriteFailed>
    ensures bytes { Puts (O.got out.old) (O.got out.new) result
        (spaced (map (λ word. word.now) words.now)) }
    ensures cause { HasCause (O.faults out.old) (O.faults out.new) result }
{
    let mut chunk = Chunk::new();
    add_line(&mut chunk, out, words)?;
    chunk.put(out)
}

fn add_line<O: Sink>(chunk: &mut Chunk, out: &mut O, words: &[&[u8]]) -> Result<(), WriteFailed>
    ensures bytes { Adds (O.got out.old) (O.got out.new) chunk.old chunk.new result
        (spaced (map (λ word. word.now) words.now)) }
    ensures cause { HasCause (O.faults out.old) (O.faults out.new) result }
{
    match words {
        [] => chunk.add(out, b"\n"),
        [first, rest @ ..] => add_first(chunk, out, first, rest),
    }
}

#[tactic(auto, using(crate::proofs::Added::adds_on))]
fn add_first<O: Sink>(
    chunk: &mut Chunk,
    out: &mut O,
    first: &[u8],
    rest: &[&[u8]],
) -> Result<(), WriteFailed>
    ensures bytes { Adds (O.got out.old) (O.got out.new) chunk.old chunk.new result
        (first.now ++ (flat_map (λ word. 32 ∷ word.now) rest.now ++ 10 ∷ [])) }
    ensures cause { HasCause (O.faults out.old) (O.faults out.new) result }
{
    chunk.add(out, first)?;
    chunk.end_line(out, rest)
}
