// The ids of the table, and what lists them.
use crate::places::listed;
use block_records::block_id::{BlockId, ShardIdent, zero_id};
use block_records::store_records::PrevIds;
use block_records::top_block::{TopBlock, TopBlocks, zero_top};

const MASTERCHAIN: ShardIdent = ShardIdent {
    workchain: -1,
    prefix: 0x8000_0000_0000_0000,
};

const SHARD: ShardIdent = ShardIdent {
    workchain: 0,
    prefix: 0x8000_0000_0000_0000,
};

// The two halves of it.
const LOW: ShardIdent = ShardIdent {
    workchain: 0,
    prefix: 0x4000_0000_0000_0000,
};

const HIGH: ShardIdent = ShardIdent {
    workchain: 0,
    prefix: 0xc000_0000_0000_0000,
};

fn block(shard: ShardIdent, seqno: u32, root: u8) -> BlockId {
    BlockId {
        shard,
        seqno,
        root_hash: [root; 32],
        file_hash: [1; 32],
    }
}

// A master.
pub fn mc(seqno: u32) -> BlockId {
    block(MASTERCHAIN, seqno, 1)
}

// Another root hash.
pub fn mc_other(seqno: u32) -> BlockId {
    block(MASTERCHAIN, seqno, 2)
}

pub fn sc(seqno: u32) -> BlockId {
    block(SHARD, seqno, 1)
}

pub fn low(seqno: u32) -> BlockId {
    block(LOW, seqno, 1)
}

pub fn high(seqno: u32) -> BlockId {
    block(HIGH, seqno, 1)
}

// One previous id.
pub fn after(id: BlockId) -> PrevIds {
    listed(&[id], zero_id())
}

// An updated top item.
pub fn top(id: BlockId) -> TopBlock {
    TopBlock {
        ref_by_mc_seqno: 5,
        block_id: id,
        updated: true,
    }
}

pub fn tops(items: &[TopBlock]) -> TopBlocks {
    listed(items, zero_top())
}
