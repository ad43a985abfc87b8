// A cache, and the table's calls on it.
use crate::outcome::{Outcome, expect};
use block_records::block_id::{BlockId, BlockIdShort};
use block_records::entry::{BlockCacheEntry, zero_entry};
use block_records::limits::SLICE_PLACES;
use block_records::questions::Refusal;
use block_records::store_records::{BlockCandidate, Keys, PrevIds, ReceivedBlock, zero_prev_ids};
use block_records::top_block::{TopBlocks, zero_tops};
use blocks_cache::cache::{Cache, empty};
use blocks_cache::extraction::SubgraphExtract;
use blocks_cache::peek::Peek;
use blocks_cache::stores::BlockCacheStoreResult;
use blocks_cache::tail_ids::TailRows;
use blocks_cache::validation::{ValidationAnswer, ValidationStatus};

// A slice of 128 places.
pub type Lent = [BlockCacheEntry; SLICE_PLACES];

pub fn lent() -> Lent {
    [zero_entry(); SLICE_PLACES]
}

// The zerostate's seqno is 0.
pub fn new() -> Cache {
    empty(0).cache
}

// A cache that calls are made on, each on what the one before it left.
#[derive(Clone, Copy)]
pub struct Trial {
    cache: Cache,
}

impl Trial {
    pub fn new() -> Trial {
        Trial { cache: new() }
    }

    // Whether the calls left this cache, whole.
    pub fn leaves(&self, expected: &Cache) -> Outcome {
        expect(self.cache == *expected)
    }

    pub fn collate(
        &mut self,
        id: BlockId,
        reference: u32,
        prev_ids: PrevIds,
    ) -> Result<BlockCacheStoreResult, Refusal> {
        let candidate = BlockCandidate {
            block_id: id,
            ref_by_mc_seqno: reference,
            prev_ids,
            top_blocks: zero_tops(),
            top_anchor: None,
            processed_to_anchor: 0,
            payload: 0,
        };
        self.cache.store_collated(candidate)
    }

    // With no previous id.
    pub fn collate_alone(&mut self, id: BlockId) -> Result<BlockCacheStoreResult, Refusal> {
        self.collate(id, 5, zero_prev_ids())
    }

    // A master is its own reference block.
    pub fn receive(
        &mut self,
        id: BlockId,
        top_blocks: TopBlocks,
    ) -> Result<BlockCacheStoreResult, Refusal> {
        let received = ReceivedBlock {
            block_id: id,
            ref_block_id: id,
            prev_ids: zero_prev_ids(),
            top_blocks,
            top_anchor: None,
            payload: 0,
        };
        self.cache.store_received(received)
    }

    // With no top item.
    pub fn receive_alone(&mut self, id: BlockId) -> Result<BlockCacheStoreResult, Refusal> {
        self.receive(id, zero_tops())
    }

    pub fn validate(
        &mut self,
        id: BlockId,
        status: ValidationStatus,
    ) -> Result<ValidationAnswer, Refusal> {
        self.cache.store_master_block_validation_result(id, status)
    }

    pub fn set_boundary(&mut self, keys: Keys) -> Result<(), Refusal> {
        self.cache.set_gc_to_boundary(keys)
    }

    pub fn collect(&mut self) -> Result<(), Refusal> {
        self.cache.gc_prev_blocks()
    }

    pub fn tail_ids(&self, short: BlockIdShort) -> Result<TailRows, Refusal> {
        self.cache.read_before_tail_ids_of_mc_block(short)
    }

    pub fn peek(&self, from: u32) -> Result<Option<Peek>, Refusal> {
        self.cache.peek_front_applied_mc_block_subgraph(from)
    }

    // The blocks that are handed out stand at the front of what is lent.
    pub fn pop(&mut self, from: u32, out: &mut Lent) -> Result<SubgraphExtract, Refusal> {
        self.cache.pop_front_applied_mc_block_subgraph(from, out)
    }

    pub fn sync(&mut self, id: BlockId, out: &mut Lent) -> Result<SubgraphExtract, Refusal> {
        self.cache.extract_mc_block_subgraph_for_sync(id, out)
    }
}
