ghost use Rattle.std.specs.Prelude.{◌≡◌, ◌↔◌, ℕ, ◌*◌, ◌<◌, not, true, false, replicate, length, count_by, slice_index_or, IfOk, IfSome, IfNone, IsNone};
ghost use Rattle.std.specs.Borrow.{sem};
ghost use Rattle.scratch_pool.specs.Pools.{IsOut, IsFree, IsSound, free_blocks, block_words, taken, given};

use crate::Memory;
use crate::parts::{part, zero};
use std::alloc::Global;
use std::marker::Model;

/// All blocks of a pool together have fewer words than this.
pub const POOL_LIMIT: u32 = 268_435_456;

/// A block of a pool, known by its number. It is not `Drop`, so that it has to be given back.
pub struct Block {
    number: u32,
}

impl Model for Block {
    ghost use Rattle.std.specs.Prelude.{ℕ};

    ghost Value = { ℕ };

    ghost view = { λ b. b.number };
}

/// Blocks of words, all of one size.
#[derive(Drop)]
pub struct Pool {
    size: usize,
    words: Vec<u32>,
    out: Vec<bool>,
    free: u32,
}

impl Model for Pool {
    ghost use Rattle.std.specs.Prelude.{◌≡◌, ◌*◌, ◌^◌, ◌<◌, not, count_by, vec_len};
    ghost use Rattle.scratch_pool.specs.Pools.{Blocks};

    ghost Value = { Blocks };

    ghost view = { λ p. record { size = p.size; words = p.words.items; out = p.out.items } };

    ghost invariant = { λ p. (vec_len p.words ≡ vec_len p.out * p.size)
        × (p.free ≡ count_by not p.out.items)
        × (vec_len p.out < 2 ^ 32) };
}

impl Pool {
    ghost use Rattle.scratch_pool.specs.Lending.{LendsBlock};

    /// Returns a pool of `blocks` blocks of `words` words. None is out.
    pub fn new(alloc: Global, blocks: u32, words: u32) -> Result<Pool, Memory>
        requires { blocks * words < POOL_LIMIT }
        ensures { IfOk result (λ pool. pool ≡ record {
          size = words;
          words = replicate (blocks * words) 0;
          out = replicate blocks false;
        }) }
    {
        let count = blocks as usize;
        let size = words as usize;
        Ok(Pool {
            size,
            words: vec![in alloc; 0; count * size]?,
            out: vec![in alloc; false; count]?,
            free: blocks,
        })
    }

    /// Returns how many blocks are not out.
    pub fn free(&self) -> u32
        ensures { result ≡ free_blocks self.now }
    {
        self.free
    }

    /// Hands out a block that is not out, with all its words 0.
    pub fn take(&mut self) -> Option<Block>
        ensures none { IsNone result ↔ (free_blocks self.old ≡ 0) }
        ensures kept { IfNone result (self.new ≡ self.old) }
        ensures block { IfSome result (λ block.
            IsFree self.old block × (self.new ≡ taken self.old block)) }
        ensures zeros { IfSome result (λ block. block_words self.new block ≡ replicate self.old.size 0) }
        ensures others { (other : ℕ) → IsOut self.old other
            → block_words self.new other ≡ block_words self.old other }
        ensures sound { IsSound self.old }
    {
        let number = find_free(&self.out)?;
        zero(&mut self.words, number * self.size, self.size);
        self.out[number] = true;
        self.free -= 1;
        Some(Block {
            number: number as u32,
        })
    }

    /// Takes a block back.
    pub fn give(&mut self, block: Block)
        requires { IsOut self.old block }
        ensures { self.new ≡ given self.old block }
    {
        let Block { number } = block;
        self.out[number as usize] = false;
        self.free += 1;
    }

    /// Returns the words of a block.
    pub fn words(&self, block: &Block) -> &[u32]
        requires { IsOut self.now block.now }
        ensures { result.now ≡ block_words self.now block.now }
    {
        part(&self.words, block.number as usize * self.size, self.size)
    }

    /// Returns the words of a block, for writing. All other blocks stay as they are.
    pub fn words_mut(&mut self, block: &Block) -> &mut [u32]
        requires { IsOut self.old block.now }
        ensures value { result.now ≡ block_words self.old block.now }
        ensures sound { IsSound self.old }
        ensures* writes_back { sem 𝓛 (LendsBlock self.entry block.now result) }
    {
        let start = block.number as usize * self.size;
        let end = start + self.size;
        self.words.slice_mut(start..end)
    }
}

fn find_free(out: &[bool]) -> Option<usize>
    ensures none { IfNone result (count_by not out.now ≡ 0) }
    ensures some { IfSome result (λ number.
        (number < length out.now) × (slice_index_or out.now number true ≡ false)) }
{
    for (number, is_out) in out.iter().enumerate() {
        if !*is_out {
            return Some(number);
        }
    }
    None
}
