// RULES.md, The whole cache: a cache, and an empty one.
ghost use Rattle.std.specs.Prelude.{◌≡◌};
ghost use Rattle.blocks_cache.specs.layout.Cache.{empty, zero_cache, zero_shard_group};

use crate::master_data::MasterData;
use block_records::block_id::{ShardIdent, zero_id, zero_shard};
use block_records::limits::{NO_CACHE_SHARDS, SHARDS_LIMIT};
use block_records::listed::Listed;
use block_records::questions::{Refusal, seqno_fits};
use blocks_group::group::{Group, MasterGroup, ShardBlocks};

#[derive(Clone, Copy, Debug, PartialEq, Eq)]
pub struct ShardGroup {
    pub shard: ShardIdent,
    pub group: ShardBlocks,
}

// Shard groups in 8 places, by shard.
pub type Shards = Listed<ShardGroup, SHARDS_LIMIT>;

#[derive(Clone, Copy, Debug, PartialEq, Eq)]
pub struct Cache {
    pub zerostate_mc_seqno: u32,
    pub masters: MasterGroup,
    pub data: MasterData,
    pub shards: Shards,
}

// A new cache, or its refusal. The rules promise a cache beside the refusal too, on which every call is refused with 1
// (Theorems.no_cache_refuses_every_call), so it is no `Result` of a cache.
#[derive(Clone, Copy, Debug, PartialEq, Eq)]
pub struct NewCache {
    pub answer: Result<(), Refusal>,
    pub cache: Cache,
}

#[tactic(auto, unfolding(crate::specs::layout::Cache::zero_shard_group))]
pub fn zero_shard_group() -> ShardGroup
    ensures { result ≡ zero_shard_group }
{
    ShardGroup {
        shard: zero_shard(),
        group: Group::empty(),
    }
}

// Zeros, but for the zerostate's seqno and the count of shard groups.
#[tactic(auto, unfolding(crate::specs::layout::Cache::zero_cache))]
fn zero_cache(zerostate: u32, count: usize) -> Cache
    ensures { result ≡ zero_cache zerostate count }
{
    Cache {
        zerostate_mc_seqno: zerostate,
        masters: Group::empty(),
        data: MasterData {
            ids: Listed::empty(zero_id()),
            range: None,
        },
        shards: Listed {
            count,
            items: [zero_shard_group(); SHARDS_LIMIT],
        },
    }
}

// An empty cache for a zerostate seqno, or the refusal of that seqno.
#[tactic(auto, using(crate::proofs::layout::CacheLaws::pack_empty))]
pub fn empty(zerostate_mc_seqno: u32) -> NewCache
    ensures { result ≡ empty zerostate_mc_seqno }
{
    if seqno_fits(zerostate_mc_seqno) {
        return NewCache {
            answer: Ok(()),
            cache: zero_cache(zerostate_mc_seqno, 0),
        };
    }
    NewCache {
        answer: Err(Refusal::SeqnoLimit),
        cache: zero_cache(0, NO_CACHE_SHARDS),
    }
}
