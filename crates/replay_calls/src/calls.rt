// The calls, made on the cache, and their answers.
use crate::answers::{Extracted, Peeked, Stored, Tails, Validated, sound_answer};
use crate::state::Session;
use block_records::block_id::{BlockId, BlockIdShort};
use block_records::entry::BlockCacheEntry;
use block_records::limits::ARRAY_PLACES;
use block_records::questions::Refusal;
use block_records::store_records::{BlockCandidate, Keys, ReceivedBlock};
use blocks_cache::cache::{Cache, empty};
use blocks_cache::extraction::SubgraphExtract;
use blocks_cache::validation::ValidationStatus;
use replay_text::commands::Call;
use replay_text::records::Verdict;

// The places of the slice, of which some are lent.
pub type Blocks = [BlockCacheEntry; ARRAY_PLACES];

// Where the seqno is refused, the cache stays.
#[inline(never)]
pub fn make(session: &mut Session<'_>, cache: &mut Cache, zerostate: u32) {
    let new = empty(zerostate);
    if new.answer.is_ok() {
        *cache = new.cache;
    }
    session.answer(new.answer.map(|_| "made"));
}

#[inline(never)]
fn collated(session: &mut Session<'_>, cache: &mut Cache, candidate: &BlockCandidate) {
    let answer = cache.store_collated(*candidate);
    session.answer(answer.map(|stored| Stored(stored)));
}

#[inline(never)]
fn received(session: &mut Session<'_>, cache: &mut Cache, block: &ReceivedBlock) {
    let answer = cache.store_received(*block);
    session.answer(answer.map(|stored| Stored(stored)));
}

pub fn validation_status(verdict: Verdict) -> ValidationStatus {
    match verdict {
        Verdict::Complete {
            signatures,
            total_weight,
        } => ValidationStatus::Complete {
            signatures,
            total_weight,
        },
        Verdict::Skipped => ValidationStatus::Skipped,
    }
}

#[inline(never)]
fn validate(session: &mut Session<'_>, cache: &mut Cache, id: BlockId, verdict: Verdict) {
    let answer = cache.store_master_block_validation_result(id, validation_status(verdict));
    session.answer(answer.map(|validated| Validated(validated)));
}

#[inline(never)]
fn set_boundary(session: &mut Session<'_>, cache: &mut Cache, keys: &Keys) {
    session.answer(cache.set_gc_to_boundary(*keys).map(|_| "done"));
}

#[inline(never)]
fn collect(session: &mut Session<'_>, cache: &mut Cache) {
    session.answer(cache.gc_prev_blocks().map(|_| "done"));
}

#[inline(never)]
fn remove_next(session: &mut Session<'_>, cache: &mut Cache, keys: &Keys) {
    let answer = cache.remove_next_collated_blocks_from_cache(*keys);
    session.answer(answer.map(|_| "done"));
}

fn extracted(session: &mut Session<'_>, blocks: &Blocks, answer: Result<SubgraphExtract, Refusal>) {
    session.answer(answer.map(|extract| Extracted { extract, blocks }));
}

#[inline(never)]
fn pop(session: &mut Session<'_>, cache: &mut Cache, blocks: &mut Blocks, from: u32) {
    let answer = cache.pop_to_array(from, blocks, session.state.places);
    extracted(session, blocks, answer);
}

#[inline(never)]
fn sync(session: &mut Session<'_>, cache: &mut Cache, blocks: &mut Blocks, id: BlockId) {
    let answer = cache.sync_to_array(id, blocks, session.state.places);
    extracted(session, blocks, answer);
}

#[inline(never)]
fn peek(session: &mut Session<'_>, cache: &Cache, from: u32) {
    let answer = cache.peek_front_applied_mc_block_subgraph(from);
    session.answer(answer.map(|found| Peeked(found)));
}

#[inline(never)]
fn tail_ids(session: &mut Session<'_>, cache: &Cache, key: BlockIdShort) {
    let answer = cache.read_before_tail_ids_of_mc_block(key);
    session.answer(answer.map(|rows| Tails(rows)));
}

#[inline(never)]
fn sound(session: &mut Session<'_>, cache: &Cache) {
    session.answer(Ok(sound_answer(cache.is_sound())));
}

// A function pays at entry for the size of its locals: each call stands in one of its own, out of line.
pub fn run_call(session: &mut Session<'_>, cache: &mut Cache, blocks: &mut Blocks, call: &Call) {
    match call {
        Call::StoreCollated(candidate) => collated(session, cache, candidate),
        Call::StoreReceived(block) => received(session, cache, block),
        Call::Validation(id, verdict) => validate(session, cache, *id, *verdict),
        Call::Boundary(keys) => set_boundary(session, cache, keys),
        Call::Collect => collect(session, cache),
        Call::RemoveNext(keys) => remove_next(session, cache, keys),
        Call::New(zerostate) => make(session, cache, *zerostate),
        Call::Pop(from) => pop(session, cache, blocks, *from),
        Call::Sync(id) => sync(session, cache, blocks, *id),
        Call::Peek(from) => peek(session, cache, *from),
        Call::TailIds(key) => tail_ids(session, cache, *key),
        Call::Sound => sound(session, cache),
    }
}
