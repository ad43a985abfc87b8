// RULES.md, Case table: C12 to C14, one function each; the cache that each leaves is compared whole.
use crate::answers::{popped, range};
use crate::expected::{
    bare_cache, cache, collated_block, entry, fresh, group, master_data, received_master,
    shard_group, with_shards,
};
use crate::ids::{after, high, low, mc, sc, top, tops};
use crate::outcome::{Outcome, Unexpected, expect};
use crate::places::padded;
use crate::trial::{Trial, lent};
use block_records::block_id::BlockId;
use block_records::entry::zero_entry;
use block_records::store_records::{PrevIds, zero_prev_ids};
use blocks_cache::cache::Cache;
use blocks_cache::tail_ids::TailIdsRow;

// Three collated shard blocks in a row, of which s1 names m4, s2 and s3 m5; and m5, received with s3 as its updated top.
fn chain() -> Result<Trial, Unexpected> {
    let mut trial = Trial::new();
    expect(trial.collate(sc(1), 4, zero_prev_ids()).is_ok())?;
    expect(trial.collate(sc(2), 5, after(sc(1))).is_ok())?;
    expect(trial.collate(sc(3), 5, after(sc(2))).is_ok())?;
    expect(trial.receive(mc(5), tops(&[top(sc(3))])).is_ok())?;
    Ok(trial)
}

// A pop hands out s2 and s3 with m5, and takes 3 ids; s1 is dropped, and the shard's mark is that of s3.
pub fn c12() -> Outcome {
    let mut trial = chain()?;
    let mut out = lent();
    let m5 = received_master(mc(5), tops(&[top(sc(3))]));
    expect(trial.pop(0, &mut out) == popped(m5, 2, 3, true))?;
    let joined = [
        collated_block(sc(2), after(sc(1))),
        collated_block(sc(3), after(sc(2))),
    ];
    expect(out == padded(&joined, zero_entry()))?;
    let masters = bare_cache(group(&[], Some(5)), master_data(&[], None));
    let shards = [shard_group(sc(1), group(&[], Some(3)))];
    trial.leaves(&with_shards(masters, &shards))
}

// A shard split: after p4 come l5 on the left, and r5 and r6 on the right, all naming m5; and m5, received with l5 and r6 as its updated tops.
fn split() -> Result<Trial, Unexpected> {
    let mut trial = Trial::new();
    expect(trial.collate(sc(4), 5, zero_prev_ids()).is_ok())?;
    expect(trial.collate(low(5), 5, after(sc(4))).is_ok())?;
    expect(trial.collate(high(5), 5, after(sc(4))).is_ok())?;
    expect(trial.collate(high(6), 5, after(high(5))).is_ok())?;
    let both = tops(&[top(low(5)), top(high(6))]);
    expect(trial.receive(mc(5), both).is_ok())?;
    Ok(trial)
}

// A pop hands out all four, the newest join first, and takes 5 ids: p4 was queued twice. The marks are 5, 4 and 6.
pub fn c13() -> Outcome {
    let mut trial = split()?;
    let mut out = lent();
    let m5 = received_master(mc(5), tops(&[top(low(5)), top(high(6))]));
    expect(trial.pop(0, &mut out) == popped(m5, 4, 5, true))?;
    // r5, p4, r6, l5
    let joined = [
        collated_block(high(5), after(sc(4))),
        collated_block(sc(4), zero_prev_ids()),
        collated_block(high(6), after(high(5))),
        collated_block(low(5), after(sc(4))),
    ];
    expect(out == padded(&joined, zero_entry()))?;
    let masters = bare_cache(group(&[], Some(5)), master_data(&[], None));
    let shards = [
        shard_group(low(5), group(&[], Some(5))),
        shard_group(sc(4), group(&[], Some(4))),
        shard_group(high(5), group(&[], Some(6))),
    ];
    trial.leaves(&with_shards(masters, &shards))
}

// The row of an id, with these previous ids.
fn row(id: BlockId, prev_ids: PrevIds) -> TailIdsRow {
    TailIdsRow {
        shard: id.shard,
        id: Some(id),
        prev_ids,
    }
}

// The tail ids of that m5: its own row without previous ids, and for the shard that of s2, which follows s1. The cache is as it was.
pub fn c14() -> Outcome {
    let trial = chain()?;
    let rows = [row(mc(5), zero_prev_ids()), row(sc(2), after(sc(1)))];
    let tail_ids = trial.tail_ids(mc(5).as_short_id());
    expect(tail_ids.map(|found| found.listed() == rows.as_slice()) == Ok(true))?;
    trial.leaves(&chained())
}

// The cache of C12 before the pop.
fn chained() -> Cache {
    let s1 = entry(sc(1), 4, zero_prev_ids(), fresh());
    let s2 = collated_block(sc(2), after(sc(1)));
    let s3 = collated_block(sc(3), after(sc(2)));
    let m5 = received_master(mc(5), tops(&[top(sc(3))]));
    let data = master_data(&[], range(5, 5));
    let masters = cache(group(&[m5.entry], Some(5)), m5.tops, data);
    with_shards(masters, &[shard_group(sc(1), group(&[s1, s2, s3], None))])
}
