// RULES.md, Soundness: question 1, of the whole cache.
ghost use Rattle.std.specs.List.{list_all};
ghost use Rattle.std.specs.Prelude.{◌≡◌, length};
ghost use Rattle.block_records.specs.rules.Limits.{shards_limit};
ghost use Rattle.block_records.specs.rules.Lists.{rising};
ghost use Rattle.blocks_cache.specs.layout.Cache.{is_zero_shard_group, shard_group_before, sound_cache, sound_shard_group, sound_shards};

use crate::cache::{Cache, ShardGroup, Shards};
use crate::master_data::sound_range;
use block_records::block_id::zero_shard;
use blocks_group::soundness::{sound_group, sound_master_group};

// ===== shard groups =====

#[tactic(auto, unfolding(crate::specs::layout::Cache::same_shard_group, crate::specs::layout::Cache::zero_shard_group))]
fn is_zero_shard_group(held: &ShardGroup) -> bool
    ensures { result ≡ is_zero_shard_group held.now }
{
    let shard = held.shard == zero_shard();
    shard & held.group.is_empty()
}

// The shard is not of the masterchain, and the group is sound for it.
fn sound_shard_group(held: &ShardGroup) -> bool
    ensures { result ≡ sound_shard_group held.now }
{
    let own = held.shard;
    let outside = !own.is_masterchain();
    let sound = sound_group(&held.group, own);
    outside & sound
}

fn shards_each_sound(groups: &[ShardGroup]) -> bool
    ensures { result ≡ list_all sound_shard_group groups.now }
{
    groups.iter().all(|held| sound_shard_group(held))
}

// Each shard comes after the one before it.
fn shards_rise(groups: &[ShardGroup]) -> bool
    ensures { result ≡ rising shard_group_before groups.now }
{
    groups.is_sorted_by(|a, b| a.shard < b.shard)
}

fn sound_shards(shards: &Shards) -> bool
    ensures sound { result ≡ sound_shards shards.now }
    ensures places { length shards.now.items ≡ shards_limit }
{
    let tidy = shards.is_tidy(|held| is_zero_shard_group(held));
    let rise = shards_rise(shards.listed());
    let sound = shards_each_sound(shards.listed());
    tidy & (rise & sound)
}

// ===== question 1 =====

impl Cache {
    pub fn is_sound(&self) -> bool
        ensures { result ≡ sound_cache self.now }
    {
        let masters = sound_master_group(&self.masters);
        let range = sound_range(self.masters.mark, self.data.range);
        let ids = self.data.sound_ids();
        let shards = sound_shards(&self.shards);
        masters & (range & (ids & shards))
    }
}
