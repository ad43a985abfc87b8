// RULES.md, Collated store and Received store: the two stores of one group.
ghost use Rattle.std.specs.Prelude.{◌≡◌};
ghost use Rattle.blocks_group.specs.arrays.Group.{block_at};
ghost use Rattle.blocks_group.specs.arrays.Store.{collated_step, fresh_step, has_place, received_step, stored_step, collated_store, received_store};
ghost use Rattle.blocks_group.specs.rules.Group.{collated_kind, received_kind};

use crate::block::Block;
use crate::group::Group;
use crate::mark::known_synced;
use block_records::entry::{BlockCacheEntryData, CandidateStatus, held_received};
use block_records::questions::Refusal;
use block_records::store_records::{BlockCandidate, ReceivedBlock};

// An Option would be no plainer: Synced is an answer with a name of its own.
#[derive(Clone, Copy, Debug, PartialEq, Eq)]
pub enum StoreAnswer {
    Stored {
        received_and_collated: bool,
        block_mismatch: bool,
    },
    Synced,
}

// What a store that is not refused answers, and the group after it.
#[derive(Clone, Copy)]
pub struct GroupStore<B> {
    pub answer: StoreAnswer,
    pub group: Group<B>,
}

// The same, and the block that it puts at its seqno, if it changes anything.
#[derive(Clone, Copy)]
pub(crate) struct StoreStep<B> {
    pub answer: StoreAnswer,
    pub change: Option<B>,
}

// ===== the steps =====

fn stored_step<B: Copy>(both: bool, mismatch: bool, change: Option<B>) -> StoreStep<B>
    ensures { result ≡ stored_step both mismatch change }
{
    let answer = StoreAnswer::Stored {
        received_and_collated: both,
        block_mismatch: mismatch,
    };
    StoreStep { answer, change }
}

// The kind once the block is collated too; a shard block keeps the candidate's processed-to anchor in it.
fn collated_kind(c: BlockCandidate, data: BlockCacheEntryData) -> BlockCacheEntryData
    ensures { result ≡ collated_kind c «data» }
{
    let BlockCacheEntryData::Received {
        additional_anchor,
        ..
    } = data
    else {
        return data;
    };
    let additional_anchor = if c.block_id.shard.is_masterchain() {
        additional_anchor
    } else {
        Some(c.processed_to_anchor)
    };
    BlockCacheEntryData::Received {
        collated_after_receive: true,
        additional_anchor,
    }
}

// The kind once the block is received too.
fn received_kind(data: BlockCacheEntryData) -> BlockCacheEntryData
    ensures { result ≡ received_kind «data» }
{
    let BlockCacheEntryData::Collated {
        signatures,
        total_signature_weight,
        processed_to_anchor,
        ..
    } = data
    else {
        return data;
    };
    BlockCacheEntryData::Collated {
        status: CandidateStatus::Synced,
        received_after_collation: true,
        signatures,
        total_signature_weight,
        processed_to_anchor,
    }
}

impl<B: Block> Group<B> {
    // A fresh block, where there is a place left.
    fn fresh_step(&self, fresh: B) -> Result<StoreStep<B>, Refusal>
        ensures { result ≡ fresh_step (has_place self.now) fresh }
    {
        if !self.entries.has_place() {
            return Err(Refusal::NoRoom);
        }
        Ok(stored_step(false, false, Some(fresh)))
    }

    // The collated store, by what stands at the candidate's seqno.
    #[tactic(auto, unfolding(crate::specs::arrays::Store::collated_step))]
    fn collated_step(&self, c: BlockCandidate) -> Result<StoreStep<B>, Refusal>
        ensures { result ≡ collated_step B.parts c (has_place self.now) (block_at B.parts c.block_id.seqno self.now) }
    {
        let Some(block) = self.at(c.block_id.seqno) else {
            return self.fresh_step(B::fresh_collated(c));
        };
        let entry = block.entry();
        if !held_received(*entry) {
            return Err(Refusal::AlreadyStored);
        }
        if entry.block_id != c.block_id {
            return Ok(stored_step(false, true, None));
        }
        let both = block.with_data(collated_kind(c, entry.data));
        Ok(stored_step(true, false, Some(both)))
    }

    // The received store of a block that is not synced, by what stands at its seqno.
    #[tactic(auto, unfolding(crate::specs::arrays::Store::received_step))]
    fn received_step(&self, zerostate: u32, r: ReceivedBlock) -> Result<StoreStep<B>, Refusal>
        ensures { result ≡ received_step B.parts zerostate r (has_place self.now) (block_at B.parts r.block_id.seqno self.now) }
    {
        let fresh = B::fresh_received(zerostate, r);
        let Some(block) = self.at(r.block_id.seqno) else {
            return self.fresh_step(fresh);
        };
        let entry = block.entry();
        if held_received(*entry) {
            return Err(Refusal::AlreadyStored);
        }
        if entry.block_id != r.block_id {
            return Ok(stored_step(false, true, Some(fresh)));
        }
        let synced = block.with_data(received_kind(entry.data));
        Ok(stored_step(true, false, Some(synced)))
    }
}

// ===== the stores =====

impl<B: Block> Group<B> {
    #[tactic(auto, unfolding(crate::specs::arrays::Store::collated_store))]
    pub fn store_collated(&self, c: BlockCandidate) -> Result<GroupStore<B>, Refusal>
        ensures { result ≡ collated_store B.parts c self.now }
    {
        let step = self.collated_step(c)?;
        let group = match step.change {
            Some(block) => self.put(block),
            None => *self,
        };
        Ok(GroupStore {
            answer: step.answer,
            group,
        })
    }

    // At or below the mark a block is Synced already.
    #[tactic(auto, unfolding(crate::specs::arrays::Store::received_store))]
    pub fn store_received(&self, zerostate: u32, r: ReceivedBlock) -> Result<GroupStore<B>, Refusal>
        ensures { result ≡ received_store B.parts zerostate r self.now }
    {
        let seqno = r.block_id.seqno;
        if known_synced(seqno, self.mark) {
            return Ok(GroupStore {
                answer: StoreAnswer::Synced,
                group: *self,
            });
        }
        let step = self.received_step(zerostate, r)?;
        let group = match step.change {
            Some(block) => self.put(block).refreshed(seqno),
            None => *self,
        };
        Ok(GroupStore {
            answer: step.answer,
            group,
        })
    }
}
