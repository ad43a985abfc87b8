// RULES.md, Collated store, Received store and Master data: the two stores.
ghost use Rattle.std.specs.Prelude.{◌≡◌};
ghost use Rattle.blocks_cache.specs.arrays.Stores.{collated_ids, shard_held, store_candidate, store_master_candidate, store_master_receipt, store_receipt, store_result, store_says, store_shard_candidate, store_shard_receipt};
ghost use Rattle.blocks_cache.specs.layout.Cache.{call_on, unlent_outcome};
ghost use Rattle.cache_rules.specs.Calls.{store_collated, store_received, unlent};

use crate::cache::{Cache, ShardGroup, Shards};
use crate::master_data::MasterData;
use crate::shards::{listed_shard, put_shard};
use block_records::block_id::{BlockId, ShardIdent};
use block_records::questions::{Refusal, check_candidate, check_received};
use block_records::range::AppliedRange;
use block_records::store_records::{BlockCandidate, ReceivedBlock};
use blocks_group::group::{Group, ShardBlocks};
use blocks_group::store::StoreAnswer;

// What a store answers: the flags, with the last id and the range of the cache as it is left; or that the block is Synced already.
// An Option would be no plainer: Synced is an answer with a name of its own.
#[derive(Clone, Copy, Debug, PartialEq, Eq)]
pub enum BlockCacheStoreResult {
    Stored {
        received_and_collated: bool,
        block_mismatch: bool,
        last_collated_mc_block_id: Option<BlockId>,
        applied_mc_queue_range: Option<AppliedRange>,
    },
    Synced,
}

// ===== what a store finds, and what it makes of master data =====

// The group of a shard, an empty one where there is none yet; refused where no further group fits.
#[tactic(auto, unfolding(crate::specs::arrays::Stores::shard_held))]
fn shard_held(shards: &Shards, shard: ShardIdent) -> Result<ShardBlocks, Refusal>
    ensures { result ≡ shard_held shard shards.now }
{
    match listed_shard(shards, shard) {
        Some(held) => Ok(held.group),
        None if shards.has_place() => Ok(Group::empty()),
        None => Err(Refusal::NoRoom),
    }
}

impl MasterData {
    // The range is moved on past the id, and the id put in.
    fn collated_ids(&mut self, id: BlockId)
        ensures { self.new ≡ collated_ids id self.old }
    {
        self.move_range_start(id.seqno);
        self.put_id(id);
    }
}

impl Cache {
    // A group's answer, with the last id and the range as they are now.
    fn store_result(&self, answer: StoreAnswer) -> BlockCacheStoreResult
        ensures { result ≡ store_result answer self.now }
    {
        match answer {
            StoreAnswer::Stored {
                received_and_collated,
                block_mismatch,
            } => BlockCacheStoreResult::Stored {
                received_and_collated,
                block_mismatch,
                last_collated_mc_block_id: self.data.highest_id(),
                applied_mc_queue_range: self.data.range,
            },
            StoreAnswer::Synced => BlockCacheStoreResult::Synced,
        }
    }
}

// ===== the collated store =====

impl Cache {
    // A master: where the group's store changes it, the range is moved on past it and its id is put in.
    #[tactic(auto, unfolding(crate::specs::arrays::Stores::store_master_candidate))]
    fn store_master_candidate(
        &mut self,
        candidate: BlockCandidate,
    ) -> Result<BlockCacheStoreResult, Refusal>
        ensures { record { answer = result; cache = self.new } ≡ store_master_candidate candidate self.old }
    {
        let store = self.masters.store_collated(candidate)?;
        if let StoreAnswer::Stored {
            block_mismatch: false,
            ..
        } = store.answer
        {
            if !self.data.has_place_for_id(candidate.block_id.seqno) {
                return Err(Refusal::NoIdRoom);
            }
            self.masters = store.group;
            self.data.collated_ids(candidate.block_id);
        }
        Ok(self.store_result(store.answer))
    }

    // A shard block: its group is put in where the store changes it.
    #[tactic(auto, unfolding(crate::specs::arrays::Stores::store_shard_candidate))]
    fn store_shard_candidate(
        &mut self,
        candidate: BlockCandidate,
    ) -> Result<BlockCacheStoreResult, Refusal>
        ensures { record { answer = result; cache = self.new } ≡ store_shard_candidate candidate self.old }
    {
        let shard = candidate.block_id.shard;
        let held = shard_held(&self.shards, shard)?;
        let store = held.store_collated(candidate)?;
        if let StoreAnswer::Stored {
            block_mismatch: false,
            ..
        } = store.answer
        {
            let put = ShardGroup {
                shard,
                group: store.group,
            };
            self.shards = put_shard(&self.shards, put);
        }
        Ok(self.store_result(store.answer))
    }

    // Questions 7 to 9, and the store.
    #[tactic(auto, unfolding(crate::specs::arrays::Stores::store_candidate))]
    fn store_candidate(
        &mut self,
        candidate: BlockCandidate,
    ) -> Result<BlockCacheStoreResult, Refusal>
        ensures { record { answer = result; cache = self.new } ≡ store_candidate candidate self.old }
    {
        if candidate.block_id.shard.is_masterchain() {
            return self.store_master_candidate(candidate);
        }
        self.store_shard_candidate(candidate)
    }

    // Question 1, then the candidate's own, then the rest. Refused, the cache is as it was.
    #[tactic(auto, using(crate::proofs::layout::AskedLaws::unsound_refused, crate::proofs::arrays::CollatedStoreLaws::candidate_refused, crate::proofs::arrays::CollatedStoreLaws::candidate_is))]
    pub fn store_collated(
        &mut self,
        candidate: BlockCandidate,
    ) -> Result<BlockCacheStoreResult, Refusal>
        ensures { unlent_outcome self.new (store_says result) ≡ call_on self.old (unlent (store_collated candidate)) }
    {
        self.check_sound()?;
        check_candidate(candidate)?;
        self.store_candidate(candidate)
    }
}

// ===== the received store =====

impl Cache {
    // A master that is not Synced becomes the range's end; on a mismatch the ids below its seqno are left.
    #[tactic(auto, unfolding(crate::specs::arrays::Stores::store_master_receipt))]
    fn store_master_receipt(
        &mut self,
        received: ReceivedBlock,
    ) -> Result<BlockCacheStoreResult, Refusal>
        ensures { record { answer = result; cache = self.new } ≡ store_master_receipt received self.old }
    {
        let store = self
            .masters
            .store_received(self.zerostate_mc_seqno, received)?;
        if let StoreAnswer::Stored { block_mismatch, .. } = store.answer {
            let seqno = received.block_id.seqno;
            self.masters = store.group;
            if block_mismatch {
                self.data.drop_ids_from(seqno);
            }
            self.data.move_range_end(seqno);
        }
        Ok(self.store_result(store.answer))
    }

    // A shard block that is not Synced: on a mismatch the ids below its reference seqno are left.
    #[tactic(auto, unfolding(crate::specs::arrays::Stores::store_shard_receipt))]
    fn store_shard_receipt(
        &mut self,
        received: ReceivedBlock,
    ) -> Result<BlockCacheStoreResult, Refusal>
        ensures { record { answer = result; cache = self.new } ≡ store_shard_receipt received self.old }
    {
        let shard = received.block_id.shard;
        let held = shard_held(&self.shards, shard)?;
        let store = held.store_received(self.zerostate_mc_seqno, received)?;
        if let StoreAnswer::Stored { block_mismatch, .. } = store.answer {
            let put = ShardGroup {
                shard,
                group: store.group,
            };
            if block_mismatch {
                self.data.drop_ids_from(received.ref_block_id.seqno);
            }
            self.shards = put_shard(&self.shards, put);
        }
        Ok(self.store_result(store.answer))
    }

    // Questions 5 to 8, and the store.
    #[tactic(auto, unfolding(crate::specs::arrays::Stores::store_receipt))]
    fn store_receipt(&mut self, received: ReceivedBlock) -> Result<BlockCacheStoreResult, Refusal>
        ensures { record { answer = result; cache = self.new } ≡ store_receipt received self.old }
    {
        if received.ref_block_id.seqno < self.zerostate_mc_seqno {
            return Err(Refusal::BeforeZerostate);
        }
        if !received.block_id.shard.is_masterchain() {
            return self.store_shard_receipt(received);
        }
        if received.block_id != received.ref_block_id {
            return Err(Refusal::ForeignReference);
        }
        self.store_master_receipt(received)
    }

    // Question 1, then the record's own, then the rest. Synced or refused, the cache is as it was.
    #[tactic(auto, using(crate::proofs::layout::AskedLaws::unsound_refused, crate::proofs::arrays::ReceivedStoreLaws::receipt_refused, crate::proofs::arrays::ReceivedStoreLaws::receipt_is))]
    pub fn store_received(
        &mut self,
        received: ReceivedBlock,
    ) -> Result<BlockCacheStoreResult, Refusal>
        ensures { unlent_outcome self.new (store_says result) ≡ call_on self.old (unlent (store_received received)) }
    {
        self.check_sound()?;
        check_received(received)?;
        self.store_receipt(received)
    }
}
