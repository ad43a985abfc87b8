// Questions 2 to 4 at each limit and one past it: of candidates, received records, cached entries and keys.
use crate::records::{block, no_candidate, no_received, prev, tops};
use crate::tally::Tally;
use block_records::block_id::BlockId;
use block_records::entry::{BlockCacheEntry, fresh_collated};
use block_records::limits::KEYS_LIMIT;
use block_records::questions::{
    Refusal, check_candidate, check_keys, check_received, held_entry_fits, held_shard_entry_fits,
};
use block_records::store_records::{BlockCandidate, Keys, PrevIds, ReceivedBlock, zero_keys};
use block_records::top_block::{TopBlocks, zero_tops};

type Answer = Result<(), Refusal>;

// Every question is answered by yes.
const FITS: Answer = Ok(());

// The largest seqno that fits, and the one past it.
const LAST: u32 = 4_294_967_294;

const PAST: u32 = 4_294_967_295;

// An id with its previous ids and top items, and what the questions answer.
type Record = (BlockId, PrevIds, TopBlocks, Answer);

fn candidate(id: BlockId, prev_ids: PrevIds, top_blocks: TopBlocks) -> BlockCandidate {
    BlockCandidate {
        block_id: id,
        ref_by_mc_seqno: 5,
        prev_ids,
        top_blocks,
        ..no_candidate()
    }
}

fn no_prev() -> PrevIds {
    let id = block(0, 0);
    prev(id, id, 0)
}

// An entry as the candidate leaves it, but with its previous ids as they were given.
fn entry(id: BlockId, prev_ids: PrevIds, top_blocks: TopBlocks) -> BlockCacheEntry {
    BlockCacheEntry {
        prev_ids,
        ..fresh_collated(candidate(id, prev_ids, top_blocks))
    }
}

// What is answered of a candidate, and the same asked of a received record and of a cached entry.
fn asked(tally: &mut Tally, records: &[Record]) {
    for (id, prev_ids, top_blocks, expected) in records {
        let received = ReceivedBlock {
            block_id: *id,
            ref_block_id: block(-1, 5),
            prev_ids: *prev_ids,
            top_blocks: *top_blocks,
            ..no_received()
        };
        let held = entry(*id, *prev_ids, *top_blocks);
        tally.holds(check_candidate(candidate(*id, *prev_ids, *top_blocks)) == *expected);
        tally.holds(check_received(received) == *expected);
        tally.holds(held_entry_fits(held, *top_blocks) == expected.is_ok());
    }
}

fn seqnos(tally: &mut Tally) {
    let refused = Err(Refusal::SeqnoLimit);
    let none = no_prev();
    let no_tops = zero_tops();
    let last = block(-1, LAST);
    let past = block(-1, PAST);
    let shard_past = block(0, PAST);
    let shard = block(0, 1);
    let low = block(-1, 1);
    let m = block(-1, 5);
    asked(
        tally,
        &[
            (last, none, no_tops, FITS),
            (past, none, no_tops, refused),
            (m, prev(past, low, 1), no_tops, refused),
            (m, prev(low, past, 2), no_tops, refused),
            (m, prev(low, past, 1), no_tops, FITS),
            (m, prev(past, past, 0), no_tops, FITS),
            (m, none, tops(LAST, shard, 1), FITS),
            (m, none, tops(PAST, shard, 1), refused),
            (m, none, tops(5, shard_past, 8), refused),
            (m, none, tops(PAST, shard_past, 0), FITS),
        ],
    );
}

// The reference seqno of a candidate and of a received record.
fn references(tally: &mut Tally) {
    for (seqno, expected) in [(LAST, FITS), (PAST, Err(Refusal::SeqnoLimit))] {
        let candidate = BlockCandidate {
            ref_by_mc_seqno: seqno,
            ..no_candidate()
        };
        let received = ReceivedBlock {
            ref_block_id: block(-1, seqno),
            ..no_received()
        };
        tally.holds(check_candidate(candidate) == expected);
        tally.holds(check_received(received) == expected);
    }
}

// Counts at their capacity and past it. A seqno that doesn't fit is found first, also where the count is past the capacity.
fn counts(tally: &mut Tally) {
    let refused = Err(Refusal::TooMany);
    let seqno_first = Err(Refusal::SeqnoLimit);
    let none = no_prev();
    let no_tops = zero_tops();
    let low = block(-1, 1);
    let past = block(-1, PAST);
    let shard = block(0, 1);
    let m = block(-1, 5);
    let s = block(0, 5);
    asked(
        tally,
        &[
            (m, prev(low, low, 2), no_tops, FITS),
            (m, prev(low, low, 3), no_tops, refused),
            (m, prev(low, past, 3), no_tops, seqno_first),
            (m, prev(m, m, 3), no_tops, refused),
            (m, prev(low, low, usize::MAX), no_tops, refused),
            (m, none, tops(5, shard, 8), FITS),
            (m, none, tops(5, shard, 9), refused),
            (m, none, tops(PAST, shard, 9), seqno_first),
            (s, none, no_tops, FITS),
            (s, none, tops(5, shard, 1), refused),
        ],
    );
}

fn links(tally: &mut Tally) {
    let refused = Err(Refusal::WrongLink);
    let none = no_prev();
    let no_tops = zero_tops();
    let m4 = block(-1, 4);
    let m = block(-1, 5);
    let s4 = block(0, 4);
    let s = block(0, 5);
    asked(
        tally,
        &[
            (m, prev(m4, m4, 1), no_tops, FITS),
            (m, prev(m, m4, 1), no_tops, refused),
            (m, prev(m4, m, 2), no_tops, refused),
            (m, prev(m4, m, 1), no_tops, FITS),
            (m, prev(s4, m4, 1), no_tops, refused),
            (s, prev(m4, m4, 1), no_tops, refused),
            (s, prev(s4, block(1, 4), 2), no_tops, FITS),
            (m, none, tops(5, m4, 1), refused),
            (m, none, tops(5, block(-2, 4), 8), FITS),
            (m, none, tops(5, block(i32::MAX, 4), 8), FITS),
        ],
    );
}

// A shard's entry is asked the same with no top items beside it.
fn shard_entries(tally: &mut Tally) {
    let s = block(0, 5);
    let s4 = block(0, 4);
    let past = block(0, PAST);
    let entries = [
        (s, prev(s4, s4, 2), true),
        (s, prev(s4, s4, 3), false),
        (s, prev(s4, s, 2), false),
        (s, prev(s4, s, 1), true),
        (past, no_prev(), false),
    ];
    for (id, prev_ids, fits) in entries {
        let none = zero_tops();
        let held = entry(id, prev_ids, none);
        tally.holds(held_shard_entry_fits(held) == fits);
        tally.holds(held_entry_fits(held, none) == fits);
    }
}

// As many keys as the count says, the last place holding another.
fn keys(seqno: u32, last: u32, count: usize) -> Keys {
    let mut items = [block(0, seqno).as_short_id(); KEYS_LIMIT];
    items[8] = block(-1, last).as_short_id();
    Keys { count, items }
}

fn key_lists(tally: &mut Tally) {
    let past = Err(Refusal::SeqnoLimit);
    let lists = [
        (zero_keys(), FITS),
        (keys(1, LAST, 9), FITS),
        (keys(1, PAST, 9), past),
        (keys(1, PAST, 8), FITS),
        (keys(1, 1, 10), Err(Refusal::TooMany)),
        (keys(1, PAST, 10), past),
        (keys(PAST, 1, 1), past),
    ];
    tally.each(&lists, |(keys, expected)| check_keys(*keys) == *expected);
}

pub fn cases(tally: &mut Tally) {
    seqnos(tally);
    references(tally);
    counts(tally);
    links(tally);
    shard_entries(tally);
    key_lists(tally);
}
