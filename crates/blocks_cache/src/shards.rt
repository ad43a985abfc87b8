// RULES.md, The whole cache: where a shard's group stands, and a group put in.
ghost use Rattle.std.specs.Prelude.{◌≡◌, length, option_map};
ghost use Rattle.block_records.specs.arrays.Place.{IsWithin};
ghost use Rattle.blocks_cache.specs.arrays.Shards.{listed_shard, put_shard, shard_place};

use crate::cache::{ShardGroup, Shards, zero_shard_group};
use block_records::block_id::ShardIdent;
use block_records::listed::place_by;

// Where a shard's group stands, or the place where it would go in.
pub(crate) fn shard_place(groups: &[ShardGroup], shard: ShardIdent) -> Result<usize, usize>
    ensures place { result ≡ shard_place shard groups.now }
    ensures within { IsWithin (length groups.now) result }
{
    place_by(groups, |held| held.shard.cmp(&shard))
}

// The group of a shard, if it has one.
#[tactic(auto, using(std::proofs::lemmas::List::get_or_default))]
pub(crate) fn listed_shard(shards: &Shards, shard: ShardIdent) -> Option<&ShardGroup>
    ensures { option_map (λ held. held.now) result ≡ listed_shard shard shards.now }
{
    let groups = shards.listed();
    match shard_place(groups, shard) {
        Ok(at) => Some(&groups[at]),
        Err(_) => None,
    }
}

// The group put in by shard; one of the same shard is replaced. Where 8 are listed and none is of the shard, nothing changes.
pub(crate) fn put_shard(shards: &Shards, group: ShardGroup) -> Shards
    ensures { result ≡ put_shard group shards.now }
{
    shards.put_by(
        |held| held.shard.cmp(&group.shard),
        group,
        zero_shard_group(),
    )
}
