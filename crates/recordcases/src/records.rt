// The records that the cases are made of.
use block_records::block_id::{BlockId, ShardIdent, zero_id};
use block_records::limits::TOPS_LIMIT;
use block_records::store_records::{BlockCandidate, PrevIds, ReceivedBlock, zero_prev_ids};
use block_records::top_block::{TopBlock, TopBlocks, zero_tops};

// An id whose hashes are zeros.
pub fn block(workchain: i32, seqno: u32) -> BlockId {
    let shard = ShardIdent {
        workchain,
        prefix: 0x8000_0000_0000_0000,
    };
    BlockId {
        shard,
        seqno,
        ..zero_id()
    }
}

// Two previous ids, of which the count lists as many as it says.
pub fn prev(first: BlockId, second: BlockId, count: usize) -> PrevIds {
    PrevIds {
        count,
        items: [first, second],
    }
}

// The same top item in every place.
pub fn tops(reference: u32, id: BlockId, count: usize) -> TopBlocks {
    let item = TopBlock {
        ref_by_mc_seqno: reference,
        block_id: id,
        updated: true,
    };
    TopBlocks {
        count,
        items: [item; TOPS_LIMIT],
    }
}

// A candidate of zeros.
pub fn no_candidate() -> BlockCandidate {
    BlockCandidate {
        block_id: zero_id(),
        ref_by_mc_seqno: 0,
        prev_ids: zero_prev_ids(),
        top_blocks: zero_tops(),
        top_anchor: None,
        processed_to_anchor: 0,
        payload: 0,
    }
}

// A received record of zeros.
pub fn no_received() -> ReceivedBlock {
    ReceivedBlock {
        block_id: zero_id(),
        ref_block_id: zero_id(),
        prev_ids: zero_prev_ids(),
        top_blocks: zero_tops(),
        top_anchor: None,
        payload: 0,
    }
}
