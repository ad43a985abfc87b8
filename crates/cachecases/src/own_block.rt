// A type of block as another crate may write it: what a candidate and a received record become is left to the trait.
ghost use Rattle.std.specs.Prelude.{refl};

use crate::expected::{entry, received};
use crate::ids::{after, mc, sc, top, tops};
use block_records::entry::{BlockCacheEntry, BlockCacheEntryData, CandidateStatus, MasterBlock};
use block_records::store_records::{BlockCandidate, ReceivedBlock, zero_prev_ids};
use block_records::top_block::TopBlocks;
use blocks_group::block::Block;
use blocks_group::group::Group;

#[derive(Clone, Copy, Debug, PartialEq, Eq)]
struct OwnBlock(MasterBlock);

impl Block for OwnBlock {
    ghost parts = { record { entry = λ b. b.0.entry; tops = λ b. b.0.tops; of = λ e t. record { 0 = record { entry = e; tops = t } } } };

    fn of(entry: BlockCacheEntry, tops: TopBlocks) -> Self {
        OwnBlock(MasterBlock { entry, tops })
    }

    fn entry(&self) -> &BlockCacheEntry {
        self.0.entry()
    }

    fn with_data(self, data: BlockCacheEntryData) -> Self {
        OwnBlock(self.0.with_data(data))
    }

    fn is_zero(&self) -> bool {
        self.0.is_zero()
    }

    fn fits(&self) -> bool {
        self.0.fits()
    }

    ghost laws = { record { whole = λ b. refl; entry_of = λ e t. refl; tops_stay = λ e d t. refl; no_tops = λ e. refl; stored = λ e b. refl } };
}

// What a caller left past the one top item that it lists.
fn with_bytes_past_the_last(listed: TopBlocks) -> TopBlocks {
    let mut given = listed;
    given.items[1] = top(sc(9));
    given
}

fn candidate(top_blocks: TopBlocks) -> BlockCandidate {
    BlockCandidate {
        block_id: mc(5),
        ref_by_mc_seqno: 6,
        prev_ids: after(mc(4)),
        top_blocks,
        top_anchor: Some(3),
        processed_to_anchor: 8,
        payload: 7,
    }
}

fn record(top_blocks: TopBlocks) -> ReceivedBlock {
    ReceivedBlock {
        block_id: mc(6),
        ref_block_id: mc(9),
        prev_ids: after(mc(5)),
        top_blocks,
        top_anchor: Some(4),
        payload: 2,
    }
}

// The candidate's block keeps all that it has; the record's, whose reference has the zerostate's seqno, has no previous id.
#[test]
fn stores_what_the_trait_makes(rt: HostRuntime) {
    let one = tops(&[top(sc(4))]);
    let given = with_bytes_past_the_last(one);
    let group: Group<OwnBlock> = Group::empty();
    let stored = group
        .store_collated(candidate(given))
        .and_then(|left| left.group.store_received(9, record(given)));
    let collated = BlockCacheEntryData::Collated {
        status: CandidateStatus::Collated,
        received_after_collation: false,
        signatures: 0,
        total_signature_weight: 0,
        processed_to_anchor: 8,
    };
    let m5 = BlockCacheEntry {
        top_anchor: Some(3),
        payload: 7,
        ..entry(mc(5), 6, after(mc(4)), collated)
    };
    let m6 = BlockCacheEntry {
        top_anchor: Some(4),
        payload: 2,
        ..entry(mc(6), 9, zero_prev_ids(), received(false))
    };
    let expected = (Some(OwnBlock::of(m5, one)), Some(OwnBlock::of(m6, one)));
    let blocks = stored.map(|left| (left.group.at(5), left.group.at(6)));
    assert_eq!(rt; blocks, Ok(expected));
}
