// Ids in their order, each compared with each.
use crate::records::block;
use crate::tally::Tally;
use block_records::block_id::{BlockId, ShardIdent, less_id, less_shard, same_id, same_shard};
use std::array;

// Zeros but for one byte.
fn hash(at: usize, byte: u8) -> [u8; 32] {
    array::from_fn(|place| if place == at { byte } else { 0 })
}

fn with_root(id: BlockId, at: usize, byte: u8) -> BlockId {
    BlockId {
        root_hash: hash(at, byte),
        ..id
    }
}

fn with_file(id: BlockId, at: usize, byte: u8) -> BlockId {
    BlockId {
        file_hash: hash(at, byte),
        ..id
    }
}

fn with_prefix(id: BlockId, prefix: u64) -> BlockId {
    let shard = ShardIdent { prefix, ..id.shard };
    BlockId { shard, ..id }
}

// They rise: each field decides where those before it are the same, -1 is below 0, and a hash's first byte weighs most.
fn rising() -> [BlockId; 16] {
    let m = block(-1, 5);
    let root = with_root(m, 31, 1);
    [
        block(i32::MIN, 9),
        block(-2, 9),
        with_prefix(block(-1, 9), 0),
        m,
        with_file(m, 31, 1),
        with_file(m, 31, 255),
        with_file(m, 0, 1),
        root,
        with_file(root, 0, 255),
        with_root(m, 31, 2),
        with_root(m, 0, 1),
        block(-1, 6),
        block(-1, u32::MAX),
        with_prefix(block(-1, 0), u64::MAX),
        with_prefix(block(0, 0), 0),
        with_prefix(block(1, 0), 0),
    ]
}

// One id against all: those before it are less, those after it greater, and it is the same as itself alone.
fn row(tally: &mut Tally, ids: &[BlockId], at: usize, id: BlockId) {
    for (place, other) in ids.iter().enumerate() {
        let less = less_id(id, *other) == (at < place);
        let same = same_id(id, *other) == (at == place);
        tally.holds(less && same);
    }
}

fn rows(tally: &mut Tally) {
    let ids = rising();
    for (at, id) in ids.iter().enumerate() {
        row(tally, &ids, at, *id);
    }
}

// Shards and the masterchain: workchain -1 whatever the prefix, and no other.
fn sides(tally: &mut Tally) {
    let m = block(-1, 5);
    let s = block(0, 5);
    let top = block(i32::MAX, 5);
    let low = with_prefix(m, 0);
    let masterchain = [
        (m, true),
        (low, true),
        (s, false),
        (block(1, 5), false),
        (top, false),
        (block(-2, 5), false),
    ];
    tally.each(&masterchain, |(id, expected)| {
        id.shard.is_masterchain() == *expected
    });
    let less = [(m, s, true), (s, m, false), (low, m, true), (s, top, true)];
    tally.each(&less, |(a, b, expected)| {
        less_shard(a.shard, b.shard) == *expected
    });
    let same = [(m, block(-1, 6), true), (m, low, false)];
    tally.each(&same, |(a, b, expected)| {
        same_shard(a.shard, b.shard) == *expected
    });
}

pub fn cases(tally: &mut Tally) {
    rows(tally);
    sides(tally);
}
