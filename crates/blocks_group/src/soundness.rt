// RULES.md, Soundness: of one group, by its counts, blocks, boundary and the places after its blocks.
ghost use Rattle.std.specs.List.{list_all};
ghost use Rattle.std.specs.Prelude.{◌≡◌, Bool};
ghost use Rattle.block_records.specs.declared.block_id.ShardIdent.{ShardIdent as Shard};
ghost use Rattle.block_records.specs.rules.Lists.{rising};
ghost use Rattle.blocks_group.specs.arrays.Soundness.{sound_block};
ghost use Rattle.blocks_group.specs.layout.Block.{block_before, shard_parts};
ghost use Rattle.blocks_group.specs.layout.Group.{is_empty_group, sound_group, sound_master_group};
ghost use Rattle.blocks_group.specs.rules.Soundness.{boundary_in, of_shard};

use crate::block::Block;
use crate::group::{Group, MasterGroup, ShardBlocks};
use block_records::block_id::{BlockIdShort, ShardIdent};

// Whether each block's seqno is above that of the one before it.
fn seqnos_rise<B: Block>(blocks: &[B]) -> bool
    ensures { result ≡ rising (block_before B.parts) blocks.now }
{
    blocks.is_sorted_by(|a, b| a.seqno() < b.seqno())
}

// Whether a block is tidy, passes questions 2 to 4 and is of a shard that the group is for.
fn sound_block<B: Block, F: Fn(ShardIdent) -> bool>(block: &B, is_for: &F) -> bool
    requires { F.IsAlwaysCallable is_for.now }
    ensures { (p : Shard → Bool) → ((s : Shard) (b : Bool) → F.post is_for.now s b → b ≡ p s) → result ≡ sound_block B.parts p block.now }
{
    let fits = block.fits();
    let shard = is_for(block.entry().block_id.shard);
    fits & shard
}

fn sound_blocks<B: Block, F: Fn(ShardIdent) -> bool>(blocks: &[B], is_for: &F) -> bool
    requires { F.IsAlwaysCallable is_for.now }
    ensures { (p : Shard → Bool) → ((s : Shard) (b : Bool) → F.post is_for.now s b → b ≡ p s) → result ≡ list_all (sound_block B.parts p) blocks.now }
{
    blocks.iter().all(|block| sound_block(block, is_for))
}

// Whether there is no boundary, or one of a shard that the group is for.
fn boundary_in<F: Fn(ShardIdent) -> bool>(boundary: Option<BlockIdShort>, is_for: &F) -> bool
    requires { F.IsAlwaysCallable is_for.now }
    ensures { (p : Shard → Bool) → ((s : Shard) (b : Bool) → F.post is_for.now s b → b ≡ p s) → result ≡ boundary_in p boundary }
{
    boundary.is_none_or(|key| is_for(key.shard))
}

impl<B: Block> Group<B> {
    // Whether the group is empty, as it stands in an unused place.
    pub fn is_empty(&self) -> bool
        ensures { result ≡ is_empty_group B.parts self.now }
    {
        let mark = self.mark.is_none();
        let boundary = self.boundary.is_none();
        let count = self.entries.count == 0;
        let zeros = self.entries.is_tidy(|block| block.is_zero());
        mark & (boundary & (count & zeros))
    }

    // Question 1 of a group, by the test of the shards that it is for.
    pub fn is_sound<F: Fn(ShardIdent) -> bool>(&self, is_for: F) -> bool
        requires { F.IsAlwaysCallable is_for }
        ensures { (p : Shard → Bool) → ((s : Shard) (b : Bool) → F.post is_for s b → b ≡ p s) → result ≡ sound_group B.parts p self.now }
    {
        let blocks = self.entries.listed();
        let tidy = self.entries.is_tidy(|block| block.is_zero());
        let sound = sound_blocks(blocks, &is_for);
        let rise = seqnos_rise(blocks);
        let bound = boundary_in(self.boundary, &is_for);
        tidy & (sound & (rise & bound))
    }
}

// ===== the same of the two groups that there are, which asks nothing of the caller =====

// Of a shard's group.
pub fn sound_group(group: &ShardBlocks, shard: ShardIdent) -> bool
    ensures { result ≡ sound_group shard_parts (of_shard shard) group.now }
{
    group.is_sound(|own| own == shard)
}

// Of the master group.
pub fn sound_master_group(masters: &MasterGroup) -> bool
    ensures { result ≡ sound_master_group masters.now }
{
    masters.is_sound(|shard| shard.is_masterchain())
}
