// RULES.md, How it is held: the shard block that is cached under a shard and seqno.
ghost use Rattle.std.specs.Prelude.{◌≡◌, ◌<◌, length, map, option_map, slice_get, true};
ghost use Rattle.std.specs.Option.{IfSome};
ghost use Rattle.block_records.specs.layout.Listed.{listed};
ghost use Rattle.block_records.specs.rules.Limits.{entries_limit, shards_limit};
ghost use Rattle.blocks_cache.specs.arrays.Lookup.{block_place, cached_block, first_ident_place, first_seqno_place, group_seqnos, index_of, shard_seqnos};
ghost use Rattle.blocks_cache.specs.arrays.Shards.{shard_ident};
ghost use Rattle.blocks_cache.specs.layout.Cache.{sound_cache};
ghost use Rattle.blocks_group.specs.layout.Block.{block_seqno, shard_parts};

use crate::cache::{Cache, Shards};
use crate::questions::SoundCache;
use block_records::block_id::{BlockId, ShardIdent};
use block_records::entry::BlockCacheEntry;
use block_records::limits::{ENTRIES_LIMIT, SHARDS_LIMIT};
use blocks_group::block::Block;
use blocks_group::group::ShardBlocks;

// The seqnos of a group's blocks, in their places, None where none is cached any more; and its mark.
#[derive(Clone, Copy, Debug, PartialEq, Eq)]
pub(crate) struct GroupSeqnos {
    pub entries: [Option<u32>; ENTRIES_LIMIT],
    pub mark: Option<u32>,
}

// ===== the shards and seqnos of the groups =====

fn shard_idents(shards: &Shards) -> [ShardIdent; SHARDS_LIMIT]
    ensures { result ≡ map shard_ident shards.now.items }
{
    std::array::from_fn(|i| shards.items[i].shard)
}

// The seqno of the block at a place, if one is there.
fn seqno_at(group: &ShardBlocks, place: usize) -> Option<u32>
    ensures seqno { result ≡ option_map (block_seqno shard_parts) (slice_get (listed group.now.entries) place) }
    ensures places { length group.now.entries.items ≡ entries_limit }
{
    group.entries.get(place).map(|block| block.seqno())
}

fn group_seqnos(group: &ShardBlocks) -> GroupSeqnos
    ensures { result ≡ group_seqnos group.now }
{
    GroupSeqnos {
        entries: std::array::from_fn(|i| seqno_at(group, i)),
        mark: group.mark,
    }
}

fn shard_seqnos(shards: &Shards) -> [GroupSeqnos; SHARDS_LIMIT]
    ensures { result ≡ map shard_seqnos shards.now.items }
{
    std::array::from_fn(|i| group_seqnos(&shards.items[i].group))
}

// ===== the lookup, by an id's key =====

fn first_ident_place(idents: &[ShardIdent], shard: ShardIdent) -> Option<usize>
    ensures { result ≡ first_ident_place shard idents.now }
{
    idents.iter().position(|held| *held == shard)
}

fn first_seqno_place(group: &GroupSeqnos, seqno: u32) -> Option<usize>
    ensures place { result ≡ first_seqno_place seqno group.now }
    ensures within { IfSome result (λ place. place < entries_limit) }
{
    group.entries.iter().position(|held| *held == Some(seqno))
}

// The shards of the groups and the seqnos of their blocks. To the walk of an extraction it is the state of what leaves: a block that was taken is None
// here. Peek and tail ids share the lookup.
#[derive(Clone, Copy, Debug, PartialEq, Eq)]
pub(crate) struct BlockIndex {
    pub idents: [ShardIdent; SHARDS_LIMIT],
    pub seqnos: [GroupSeqnos; SHARDS_LIMIT],
}

impl BlockIndex {
    pub fn of(shards: &Shards) -> Self
        ensures { result ≡ index_of shards.now }
    {
        BlockIndex {
            idents: shard_idents(shards),
            seqnos: shard_seqnos(shards),
        }
    }

    // Where the block under an id's key is cached: the place of its group, and its own in it.
    #[tactic(auto, unfolding(crate::specs::arrays::Lookup::block_place, crate::specs::arrays::Lookup::no_seqnos))]
    pub fn place(&self, id: BlockId) -> Option<(usize, usize)>
        ensures place { result ≡ block_place id self.now.idents self.now.seqnos }
        ensures within { IfSome result (λ places. (places.0 < shards_limit) × (places.1 < entries_limit)) }
    {
        let at = first_ident_place(&self.idents, id.shard)?;
        let place = first_seqno_place(self.seqnos.get(at)?, id.seqno)?;
        Some((at, place))
    }
}

// A sound cache, and the index of its shard groups.
#[derive(Clone, Copy)]
pub(crate) struct Lookup<'a> {
    pub cache: &'a Cache,
    pub index: BlockIndex,
    ghost sound: { sound_cache cache.now ≡ true },
    ghost gathered: { index ≡ index_of cache.now.shards },
}

impl<'a> Lookup<'a> {
    // The block that is cached under an id's key.
    #[tactic(auto, using(crate::proofs::arrays::LookupLaws::cached_blocks))]
    pub fn cached_block(&self, id: BlockId) -> Option<&'a BlockCacheEntry>
        ensures { option_map (λ b. b.now) result ≡ cached_block id self.now.cache.now }
    {
        let (at, place) = self.index.place(id)?;
        Some(&self.cache.shards.items[at].group.entries.items[place])
    }
}

impl<'a> SoundCache<'a> {
    // With the index of its shard groups.
    pub fn lookup(self) -> Lookup<'a>
        ensures { result.cache.now ≡ self.entry.cache.now }
    {
        Lookup {
            cache: self.cache,
            index: BlockIndex::of(&self.cache.shards),
        }
    }
}
