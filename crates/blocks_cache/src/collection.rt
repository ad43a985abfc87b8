// RULES.md, Boundary and collection and Removal of collated blocks: set boundary, collect, remove next collated.
ghost use Rattle.std.specs.List.{fold};
ghost use Rattle.std.specs.Prelude.{◌≡◌};
ghost use Rattle.block_records.specs.rules.BlockId.{listed_keys};
ghost use Rattle.blocks_cache.specs.arrays.Collection.{change_says, collect_shards, drop_collected, drop_removed, held_bound_one, held_collect, held_remove_one};
ghost use Rattle.blocks_cache.specs.layout.Cache.{call_on, unlent_outcome};
ghost use Rattle.cache_rules.specs.Calls.{collect, remove_next_collated, set_boundary, unlent};

use crate::cache::{Cache, Shards};
use crate::master_data::MasterData;
use crate::shards::shard_place;
use block_records::block_id::BlockIdShort;
use block_records::questions::{Refusal, check_keys};
use block_records::store_records::Keys;

// ===== set boundary =====

impl Cache {
    // The key becomes the boundary of its shard's group, if there is one.
    #[tactic(auto, unfolding(crate::specs::arrays::Collection::held_bound_one))]
    fn held_bound_one(&mut self, key: BlockIdShort)
        ensures { self.new ≡ held_bound_one self.old key }
    {
        if key.shard.is_masterchain() {
            self.masters.boundary = Some(key);
            return;
        }
        if let Ok(at) = shard_place(self.shards.listed(), key.shard) {
            self.shards.items[at].group.boundary = Some(key);
        }
    }

    // Each listed key in turn.
    fn bound_all(&mut self, given: Keys)
        ensures { self.new ≡ fold held_bound_one self.old (listed_keys given) }
    {
        for key in given.listed() {
            self.held_bound_one(*key);
        }
    }

    #[tactic(auto, using(crate::proofs::layout::AskedLaws::unsound_refused, crate::proofs::arrays::CollectionLaws::boundary_refuses, crate::proofs::arrays::CollectionLaws::boundary_is))]
    pub fn set_gc_to_boundary(&mut self, to_blocks_keys: Keys) -> Result<(), Refusal>
        ensures { unlent_outcome self.new (change_says result) ≡ call_on self.old (unlent (set_boundary to_blocks_keys)) }
    {
        self.check_sound()?;
        check_keys(to_blocks_keys)?;
        self.bound_all(to_blocks_keys);
        Ok(())
    }
}

// ===== collect =====

impl MasterData {
    // The ids from the highest collected master on stay.
    fn drop_collected(&mut self, highest: Option<u32>)
        ensures { self.new ≡ drop_collected highest self.old }
    {
        if let Some(seqno) = highest {
            self.drop_ids_below(seqno);
        }
    }
}

// Each listed group without its blocks below its boundary.
#[tactic(auto, using(crate::proofs::arrays::CollectionLaws::collected_next))]
fn collect_shards(shards: &mut Shards)
    ensures { shards.new ≡ collect_shards shards.old }
{
    let count = shards.listed().len();
    let (listed, _) = shards.items.split_at_mut(count);
    for held in listed.iter_mut() {
        held.group = held.group.collected();
    }
}

impl Cache {
    // Every group is collected by its boundary, and ids are dropped by the masters collected; the range stays.
    #[tactic(auto, unfolding(crate::specs::arrays::Collection::held_collect))]
    fn held_collect(&mut self)
        ensures { self.new ≡ held_collect self.old }
    {
        let highest = self.masters.highest_below_boundary();
        self.masters = self.masters.collected();
        self.data.drop_collected(highest);
        collect_shards(&mut self.shards);
    }

    #[tactic(auto, using(crate::proofs::layout::AskedLaws::unsound_refused, crate::proofs::arrays::CollectionLaws::collect_is))]
    pub fn gc_prev_blocks(&mut self) -> Result<(), Refusal>
        ensures { unlent_outcome self.new (change_says result) ≡ call_on self.old (unlent collect) }
    {
        self.check_sound()?;
        self.held_collect();
        Ok(())
    }
}

// ===== remove next collated =====

impl MasterData {
    // The ids below the lowest removed master stay.
    fn drop_removed(&mut self, lowest: Option<u32>)
        ensures { self.new ≡ drop_removed lowest self.old }
    {
        if let Some(seqno) = lowest {
            self.drop_ids_from(seqno);
        }
    }
}

impl Cache {
    // The key's group, if there is one, loses the blocks above the key's seqno that are not Received; ids are dropped by the masters removed; the
    // range stays.
    #[tactic(auto, unfolding(crate::specs::arrays::Collection::held_remove_one))]
    fn held_remove_one(&mut self, key: BlockIdShort)
        ensures { self.new ≡ held_remove_one self.old key }
    {
        if key.shard.is_masterchain() {
            let lowest = self.masters.lowest_collated_above(key.seqno);
            self.masters = self.masters.without_collated_above(key.seqno);
            self.data.drop_removed(lowest);
            return;
        }
        if let Ok(at) = shard_place(self.shards.listed(), key.shard) {
            let group = self.shards.items[at].group;
            self.shards.items[at].group = group.without_collated_above(key.seqno);
        }
    }

    // Each listed key in turn.
    fn remove_all(&mut self, given: Keys)
        ensures { self.new ≡ fold held_remove_one self.old (listed_keys given) }
    {
        for key in given.listed() {
            self.held_remove_one(*key);
        }
    }

    #[tactic(auto, using(crate::proofs::layout::AskedLaws::unsound_refused, crate::proofs::arrays::CollectionLaws::removal_refuses, crate::proofs::arrays::CollectionLaws::removal_is))]
    pub fn remove_next_collated_blocks_from_cache(
        &mut self,
        after_blocks_keys: Keys,
    ) -> Result<(), Refusal>
        ensures { unlent_outcome self.new (change_says result) ≡ call_on self.old (unlent (remove_next_collated after_blocks_keys)) }
    {
        self.check_sound()?;
        check_keys(after_blocks_keys)?;
        self.remove_all(after_blocks_keys);
        Ok(())
    }
}
