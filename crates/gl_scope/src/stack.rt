// The blocks by id.
ghost use Rattle.std.specs.Prelude.{◌≡◌, [], Some, None, IfOk, OnErr, IsSome, is_some};
ghost use Rattle.gl_arena.specs.Arena.{named, Gives, Ends, IsStamped};
ghost use Rattle.gl_scope.specs.View.{seen_block};

use crate::Block;
use gl_arena::{Arena, BlockId, BlockMark};
use std::alloc::{AllocError, Global};
use std::marker::Model;

/// The blocks that live. Contracts see which block each id names, and how many were pushed.
#[derive(Drop)]
pub struct BlockStack {
    blocks: Arena<Block, BlockMark>,
}

impl Model for BlockStack {
    ghost use Rattle.gl_arena.specs.Arena.{IsStamped};
    ghost use Rattle.gl_scope.specs.Scope.{Blocks, blocks_code};
    ghost use Rattle.gl_scope.specs.View.{seen_blocks};

    ghost Value = { Blocks };

    ghost coded = { blocks_code };

    ghost view = { λ s. seen_blocks s.blocks };

    ghost invariant = { λ s. IsStamped (seen_blocks s.blocks) };
}

impl BlockStack {
    /// No blocks.
    pub fn new(alloc: Global) -> Result<BlockStack, AllocError>
        ensures empty { IfOk result (λ s. s.slots ≡ []) }
        ensures made { IfOk result (λ s. s.made ≡ 0) }
    {
        Ok(BlockStack {
            blocks: Arena::new(alloc)?,
        })
    }

    /// Adds a block, under an id that was never given before.
    pub fn push(&mut self, block: Block) -> Result<BlockId, AllocError>
        ensures ok { IfOk result (λ id. Gives self.old self.new id (seen_block block)) }
        ensures err { OnErr result (self.new ≡ self.old) }
    {
        insert_block(&mut self.blocks, block)
    }

    /// Whether the id names a block. It takes no memory.
    pub fn live(&self, id: BlockId) -> bool
        ensures { result ≡ is_some (named self.now id) }
    {
        self.blocks.live(id)
    }

    /// The block of an id.
    pub fn get(&self, id: BlockId) -> &Block
        requires { IsSome (named self.now id) }
        ensures { named self.now id ≡ Some (seen_block result.now) }
    {
        self.blocks.get(id)
    }

    /// The law that each live id was given before, and that no two live ids have one stamp.
    pub fn stamps(&self)
        ensures { IsStamped self.now }
    {
        let _ = &self.blocks;
    }

    /// Ends a block.
    pub fn free(&mut self, id: BlockId)
        requires { IsSome (named self.old id) }
        ensures { Ends self.old self.new id }
    {
        drop(self.blocks.remove(id));
    }
}

fn insert_block(blocks: &mut Arena<Block, BlockMark>, block: Block) -> Result<BlockId, AllocError>
    ensures ok { IfOk result (λ id. Gives blocks.old blocks.new id block) }
    ensures err { OnErr result (blocks.new ≡ blocks.old) }
{
    match blocks.insert(block) {
        Ok(id) => Ok(id),
        Err((_, error)) => Err(error),
    }
}
