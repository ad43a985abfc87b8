// RULES.md, Entries: what a group's blocks are: an entry each, beside which a master block has its top items; a shard block has none.
ghost use Rattle.std.specs.Prelude.{◌≡◌};
ghost use Rattle.block_records.specs.layout.Entry.{pack_entry, stored_tops};
ghost use Rattle.block_records.specs.rules.Entry.{fresh_collated, fresh_received};
ghost use Rattle.blocks_group.specs.layout.Block.{BlockLaws, BlockParts, block_fits, block_seqno, is_zero_block, master_laws, master_parts, shard_laws, shard_parts, with_block_data, zero_block};

use block_records::entry::{
    BlockCacheEntry, BlockCacheEntryData, MasterBlock, entry_tidy, fresh_collated,
    fresh_collated_master, fresh_received, fresh_received_master, is_zero_entry, with_data,
    zero_entry,
};
use block_records::questions::{held_entry_fits, held_shard_entry_fits};
use block_records::store_records::{BlockCandidate, ReceivedBlock};
use block_records::top_block::{TopBlocks, is_zero_tops, stored_tops, tops_tidy, zero_tops};

// A block of a group, by its parts.
pub trait Block: Copy {
    ghost parts: { BlockParts Self };

    // An entry, with its top items beside it where the type has them.
    fn of(entry: BlockCacheEntry, tops: TopBlocks) -> Self
        ensures { result ≡ parts.of entry tops };

    // What a candidate becomes, and what a received record does. An `impl` needn't write them.
    fn fresh_collated(c: BlockCandidate) -> Self
        ensures { result ≡ parts.of (pack_entry (fresh_collated c)) (stored_tops c.top_blocks) }
    {
        Self::of(fresh_collated(c), stored_tops(c.top_blocks))
    }

    fn fresh_received(zerostate: u32, r: ReceivedBlock) -> Self
        ensures { result ≡ parts.of (pack_entry (fresh_received zerostate r)) (stored_tops r.top_blocks) }
    {
        Self::of(fresh_received(zerostate, r), stored_tops(r.top_blocks))
    }

    fn entry(&self) -> &BlockCacheEntry
        ensures { result.now ≡ parts.entry self.now };

    // The block with another kind.
    fn with_data(self, data: BlockCacheEntryData) -> Self
        ensures { result ≡ with_block_data parts «data» self };

    // Whether it is what stands in an unused place.
    fn is_zero(&self) -> bool
        ensures { result ≡ is_zero_block parts self.now };

    // Whether its counts are within their places, zeros stand beyond them, and questions 2 to 4 are true of it.
    fn fits(&self) -> bool
        ensures { result ≡ block_fits parts self.now };

    ghost laws: { BlockLaws parts };

    // Blocks stand in a group by their seqnos.
    final fn seqno(&self) -> u32
        ensures { result ≡ block_seqno parts self.now }
    {
        self.entry().block_id.seqno
    }
}

impl Block for BlockCacheEntry {
    ghost parts = { shard_parts };

    fn of(entry: BlockCacheEntry, _tops: TopBlocks) -> Self {
        entry
    }

    fn fresh_collated(c: BlockCandidate) -> Self {
        fresh_collated(c)
    }

    fn fresh_received(zerostate: u32, r: ReceivedBlock) -> Self {
        fresh_received(zerostate, r)
    }

    fn entry(&self) -> &BlockCacheEntry {
        self
    }

    fn with_data(self, data: BlockCacheEntryData) -> Self {
        with_data(self, data)
    }

    #[tactic(auto, using(crate::proofs::layout::BlockLaws::shard_zero))]
    fn is_zero(&self) -> bool {
        is_zero_entry(*self)
    }

    #[tactic(auto, using(crate::proofs::layout::BlockLaws::shard_fits))]
    fn fits(&self) -> bool {
        entry_tidy(*self) && held_shard_entry_fits(*self)
    }

    ghost laws = { shard_laws };
}

impl Block for MasterBlock {
    ghost parts = { master_parts };

    fn of(entry: BlockCacheEntry, tops: TopBlocks) -> Self {
        MasterBlock { entry, tops }
    }

    fn fresh_collated(c: BlockCandidate) -> Self {
        fresh_collated_master(c)
    }

    fn fresh_received(zerostate: u32, r: ReceivedBlock) -> Self {
        fresh_received_master(zerostate, r)
    }

    fn entry(&self) -> &BlockCacheEntry {
        &self.entry
    }

    fn with_data(self, data: BlockCacheEntryData) -> Self {
        MasterBlock {
            entry: with_data(self.entry, data),
            ..self
        }
    }

    // Part by part, as the definition has it for both types.
    fn is_zero(&self) -> bool {
        is_zero_entry(self.entry) && is_zero_tops(self.tops)
    }

    fn fits(&self) -> bool {
        entry_tidy(self.entry) && tops_tidy(self.tops) && held_entry_fits(self.entry, self.tops)
    }

    ghost laws = { master_laws };
}

// The zeros of an unused place.
pub fn zero_block<B: Block>() -> B
    ensures { result ≡ zero_block B.parts }
{
    B::of(zero_entry(), zero_tops())
}
