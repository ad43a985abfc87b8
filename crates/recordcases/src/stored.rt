// What is stored of a record: spare places as zeros, a received record at the zerostate, its top anchor; applied entries; zeros.
use crate::records::{block, no_candidate, no_received, prev, tops};
use crate::tally::Tally;
use block_records::block_id::is_zero_id;
use block_records::entry::{
    BlockCacheEntry, BlockCacheEntryData, CandidateStatus, entry_tidy, fresh_collated,
    fresh_collated_master, fresh_received, held_applied, held_received, is_zero_entry, kind_number,
    status_number, with_data, zero_entry,
};
use block_records::store_records::{BlockCandidate, PrevIds, ReceivedBlock, zero_prev_ids};
use block_records::top_block::{TopBlocks, stored_tops, tops_tidy, zero_top};

// Both places are written, and so many of them listed.
fn littered(count: usize) -> PrevIds {
    prev(block(-1, 1), block(-1, 2), count)
}

fn littered_tops(count: usize) -> TopBlocks {
    tops(5, block(0, 1), count)
}

fn spare_places(tally: &mut Tally) {
    let c = BlockCandidate {
        block_id: block(-1, 5),
        prev_ids: littered(1),
        top_blocks: littered_tops(3),
        ..no_candidate()
    };
    let m = fresh_collated_master(c);
    let e = fresh_collated(c);
    let [first, second] = e.prev_ids.items;
    let [_, _, third, fourth, ..] = m.tops.items;
    tally.all(&[
        e.prev_ids.count == 1,
        first.seqno == 1,
        is_zero_id(second),
        entry_tidy(e),
        !tops_tidy(littered_tops(3)),
        tops_tidy(m.tops),
        m.tops.count == 3,
        third != zero_top(),
        fourth == zero_top(),
        entry_tidy(m.entry),
    ]);
}

// A count past the capacity stores every place there is.
fn long_counts(tally: &mut Tally) {
    let e = fresh_collated(BlockCandidate {
        prev_ids: littered(3),
        ..no_candidate()
    });
    let s = stored_tops(littered_tops(9));
    tally.all(&[e.prev_ids.count == 2, s.count == 8]);
}

fn received(workchain: i32, reference: u32) -> ReceivedBlock {
    ReceivedBlock {
        block_id: block(workchain, 6),
        ref_block_id: block(-1, reference),
        prev_ids: littered(1),
        top_anchor: Some(7),
        payload: 9,
        ..no_received()
    }
}

// A block that names the zerostate loses its previous ids and keeps its payload; one that is no master loses its top anchor.
fn received_records(tally: &mut Tally) {
    let m = fresh_received(5, received(-1, 6));
    let z = fresh_received(6, received(-1, 6));
    let s = fresh_received(5, received(0, 6));
    tally.all(&[
        m.prev_ids.count == 1,
        z.prev_ids == zero_prev_ids(),
        z.payload == 9,
        m.top_anchor.is_some(),
        s.top_anchor.is_none(),
        m.ref_by_mc_seqno == 6,
        held_received(m),
        held_applied(m),
    ]);
}

fn collated(received_after_collation: bool) -> BlockCacheEntry {
    let data = BlockCacheEntryData::Collated {
        status: CandidateStatus::Synced,
        received_after_collation,
        signatures: 0,
        total_signature_weight: 0,
        processed_to_anchor: 0,
    };
    with_data(zero_entry(), data)
}

// A Collated entry is applied only once it was received too.
fn applied(tally: &mut Tally) {
    let yes = collated(true);
    tally.all(&[
        held_applied(yes),
        !held_applied(collated(false)),
        !held_received(yes),
        kind_number(yes.data) == 0,
    ]);
}

fn statuses(tally: &mut Tally) {
    let numbers = [
        (CandidateStatus::Collated, 0),
        (CandidateStatus::Validated, 1),
        (CandidateStatus::ValidationSkipped, 2),
        (CandidateStatus::Synced, 3),
    ];
    tally.each(&numbers, |(status, number)| {
        status_number(*status) == *number
    });
}

fn zeros(tally: &mut Tally) {
    tally.all(&[is_zero_entry(zero_entry()), !is_zero_entry(collated(false))]);
}

pub fn cases(tally: &mut Tally) {
    spare_places(tally);
    long_counts(tally);
    received_records(tally);
    applied(tally);
    statuses(tally);
    zeros(tally);
}
