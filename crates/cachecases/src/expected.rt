// The entries, groups and caches that the cases leave, written out.
use crate::places::listed;
use crate::trial::new;
use block_records::block_id::{BlockId, zero_id};
use block_records::entry::{
    BlockCacheEntry, BlockCacheEntryData, CandidateStatus, MasterBlock, zero_entry, zero_master,
};
use block_records::limits::ENTRIES_LIMIT;
use block_records::listed::Listed;
use block_records::range::AppliedRange;
use block_records::store_records::{PrevIds, zero_prev_ids};
use block_records::top_block::{TopBlocks, zero_tops};
use blocks_cache::cache::{Cache, ShardGroup, zero_shard_group};
use blocks_cache::master_data::MasterData;
use blocks_group::group::{Group, MasterGroup, ShardBlocks};

// ===== kinds and entries =====

pub fn collated(
    status: CandidateStatus,
    received: bool,
    signatures: u64,
    weight: u64,
) -> BlockCacheEntryData {
    BlockCacheEntryData::Collated {
        status,
        received_after_collation: received,
        signatures,
        total_signature_weight: weight,
        processed_to_anchor: 0,
    }
}

// As a block is stored that was not collated before.
pub fn fresh() -> BlockCacheEntryData {
    collated(CandidateStatus::Collated, false, 0, 0)
}

pub fn received(collated_after_receive: bool) -> BlockCacheEntryData {
    BlockCacheEntryData::Received {
        collated_after_receive,
        additional_anchor: None,
    }
}

// With no anchor and payload 0.
pub fn entry(
    id: BlockId,
    reference: u32,
    prev_ids: PrevIds,
    data: BlockCacheEntryData,
) -> BlockCacheEntry {
    BlockCacheEntry {
        block_id: id,
        prev_ids,
        top_anchor: None,
        ref_by_mc_seqno: reference,
        payload: 0,
        data,
    }
}

// A block as it was collated, reference 5.
pub fn collated_block(id: BlockId, prev_ids: PrevIds) -> BlockCacheEntry {
    entry(id, 5, prev_ids, fresh())
}

// A master with no previous id, of a kind.
pub fn master(id: BlockId, data: BlockCacheEntryData) -> BlockCacheEntry {
    entry(id, id.seqno, zero_prev_ids(), data)
}

// A master as it was received.
pub fn received_master(id: BlockId, tops: TopBlocks) -> MasterBlock {
    MasterBlock {
        entry: master(id, received(false)),
        tops,
    }
}

// ===== groups =====

pub fn group(entries: &[BlockCacheEntry], mark: Option<u32>) -> ShardBlocks {
    Group {
        mark,
        boundary: None,
        entries: listed(entries, zero_entry()),
    }
}

pub fn shard_group(id: BlockId, group: ShardBlocks) -> ShardGroup {
    ShardGroup {
        shard: id.shard,
        group,
    }
}

// ===== caches =====

// The last collated ids, and the applied range.
pub fn master_data(ids: &[BlockId], range: Option<AppliedRange>) -> MasterData {
    MasterData {
        ids: listed(ids, zero_id()),
        range,
    }
}

// The master blocks of entries, the first with its top items.
pub fn masters(group: ShardBlocks, tops: TopBlocks) -> MasterGroup {
    let mut blocks = [zero_master(); ENTRIES_LIMIT];
    for (block, entry) in blocks.iter_mut().zip(group.entries.items.iter()) {
        block.entry = *entry;
    }
    blocks[0].tops = tops;
    Group {
        mark: group.mark,
        boundary: group.boundary,
        entries: Listed {
            count: group.entries.count,
            items: blocks,
        },
    }
}

pub fn cache(group: ShardBlocks, tops: TopBlocks, data: MasterData) -> Cache {
    Cache {
        masters: masters(group, tops),
        data,
        ..new()
    }
}

// Masters with no top items.
pub fn bare_cache(group: ShardBlocks, data: MasterData) -> Cache {
    cache(group, zero_tops(), data)
}

pub fn with_shards(left: Cache, shards: &[ShardGroup]) -> Cache {
    Cache {
        shards: listed(shards, zero_shard_group()),
        ..left
    }
}
