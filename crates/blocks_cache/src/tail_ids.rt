// RULES.md, Tail ids: the walk, and the rows that come of it.
ghost use Rattle.std.specs.List.{fold, list_any};
ghost use Rattle.std.specs.Prelude.{true, ◌≡◌, [], ◌++◌, ◌∷◌, ◌≤◌, length, map, not, slice_get};
ghost use Rattle.block_records.specs.arrays.Place.{IsWithin};
ghost use Rattle.block_records.specs.layout.Entry.{pack_prev_ids};
ghost use Rattle.block_records.specs.layout.Listed.{listed};
ghost use Rattle.block_records.specs.rules.BlockId.{listed_prev_ids, listed_tops, same_id};
ghost use Rattle.block_records.specs.rules.Limits.{queued_limit};
ghost use Rattle.blocks_cache.specs.arrays.TailIds.{block_tails, cached_row, first_state, fresh_ids, has_number, hold_row, missing_row, read_tails, replaces_last, row_place, tails_say, take_queued, take_tail_id, with_rows, zero_tail, zeroed_tails};
ghost use Rattle.blocks_cache.specs.arrays.TailQueue.{fingerprint};
ghost use Rattle.blocks_cache.specs.layout.Cache.{call_on, unlent_outcome};
ghost use Rattle.cache_rules.specs.Calls.{read_tail_ids, unlent};
ghost use Rattle.cache_rules.specs.Extraction.{top_id};
ghost use Rattle.cache_rules.specs.TailIdsOnce.{knows};

use crate::cache::Cache;
use crate::lookup::Lookup;
use crate::questions::{SoundCache, check_seqno};
use block_records::block_id::{BlockId, BlockIdShort, ShardIdent, zero_id, zero_shard};
use block_records::entry::MasterBlock;
use block_records::limits::{QUEUED_FULL, QUEUED_LIMIT, QUEUED_PLACES, ROWS_LIMIT};
use block_records::listed::{Listed, place_by};
use block_records::questions::Refusal;
use block_records::store_records::{PrevIds, stored_prev_ids, zero_prev_ids};
use block_records::top_block::TopBlocks;
use std::marker::Model;

// Of a shard: an id or none, and previous ids.
#[derive(Clone, Copy, Debug, PartialEq, Eq)]
pub struct TailIdsRow {
    pub shard: ShardIdent,
    pub id: Option<BlockId>,
    pub prev_ids: PrevIds,
}

// The rows in 17 places, by shard.
pub type TailRows = Listed<TailIdsRow, ROWS_LIMIT>;

// The ids that were queued, each once, with their fingerprints: at most 256. With two places more, two are always written, and no test tells how many.
// Two arrays, since numbers in a row are compared several at once (measured, see `has_number`).
#[derive(Drop)]
pub(crate) struct TailQueue {
    ids: [BlockId; QUEUED_PLACES],
    fingerprints: [u64; QUEUED_PLACES],
    count: usize,
}

// The rows and the queue, between the two loops.
#[derive(Drop)]
pub(crate) struct TailWalk {
    pub tails: TailRows,
    pub queue: TailQueue,
}

// ===== the rows =====

#[tactic(auto, unfolding(crate::specs::arrays::TailIds::zero_tail))]
fn zero_tail() -> TailIdsRow
    ensures { result ≡ zero_tail }
{
    TailIdsRow {
        shard: zero_shard(),
        id: None,
        prev_ids: zero_prev_ids(),
    }
}

// Where a shard's row stands, or the place where it would go in.
fn row_place(tails: &TailRows, shard: ShardIdent) -> Result<usize, usize>
    ensures place { result ≡ row_place shard tails.now }
    ensures within { IsWithin (length (listed tails.now)) result }
{
    place_by(tails.listed(), |row| row.shard.cmp(&shard))
}

// Whether an id takes the place of one held: that one is absent, or this one comes before it.
fn replaces_last(id: Option<BlockId>, held: Option<BlockId>) -> bool
    ensures { result ≡ replaces_last id held }
{
    held.is_none() || id < held
}

// The row goes to its shard's place, if none is held there or its id takes the place of the one held. Where 17 are listed and none is of the shard,
// nothing changes.
#[tactic(auto, using(crate::proofs::arrays::TailRowLaws::held_rows))]
fn hold_row(tails: &mut TailRows, row: TailIdsRow)
    ensures { tails.new ≡ hold_row row tails.old }
{
    match row_place(tails, row.shard) {
        Ok(at) => {
            // As a slice, since the length of an array behind a reference is told of its slice alone.
            let rows: &mut [TailIdsRow] = &mut tails.items;
            if replaces_last(row.id, rows[at].id) {
                rows[at] = row;
            }
        }
        Err(at) => {
            if tails.has_place() {
                *tails = tails.spliced(at, at, row, zero_tail());
            }
        }
    }
}

// ===== what an id gives =====

// Of a cached block: the id that was looked up, and the block's previous ids.
fn cached_row(id: BlockId, prev_ids: PrevIds) -> TailIdsRow
    ensures { result ≡ cached_row id prev_ids }
{
    TailIdsRow {
        shard: id.shard,
        id: Some(id),
        prev_ids,
    }
}

// Of a top that is not cached: no id, and the top itself as the previous one.
#[tactic(auto, unfolding(block_records::specs::rules::Lists::padded))]
fn missing_row(id: BlockId) -> TailIdsRow
    ensures { result ≡ missing_row id }
{
    TailIdsRow {
        shard: id.shard,
        id: None,
        prev_ids: Listed {
            count: 1,
            items: [id, zero_id()],
        },
    }
}

// ===== the ids that wait =====

// Whether an id is among others.
fn is_among(ids: &[BlockId], id: BlockId) -> bool
    ensures { result ≡ list_any (same_id id) ids.now }
{
    ids.iter().any(|known| id == *known)
}

// Whether an id is neither among those known nor among the fresh ones.
fn is_new(known: &[BlockId], fresh: &[BlockId], id: BlockId) -> bool
    ensures { result ≡ not (knows (known.now ++ fresh.now) id) }
{
    !(is_among(known, id) || is_among(fresh, id))
}

// Of the previous ids those that are not known yet, each once; none where 256 places would not hold them.
#[tactic(auto, using(crate::proofs::arrays::TailRowLaws::fresh_ends))]
fn fresh_ids(known: &[BlockId], prev: PrevIds) -> PrevIds
    ensures { result ≡ pack_prev_ids (fresh_ids known.now (listed_prev_ids prev)) }
{
    let mut fresh = zero_prev_ids();
    for id in prev.listed() {
        if is_new(known, fresh.listed(), *id) {
            fresh = fresh.spliced(fresh.count, fresh.count, *id, zero_id());
        }
    }
    if known.len() + fresh.count <= QUEUED_LIMIT {
        fresh
    } else {
        zero_prev_ids()
    }
}

// Ids that are the same have the same fingerprint.
#[tactic(auto, unfolding(crate::specs::arrays::TailQueue::fingerprint))]
fn fingerprint(id: BlockId) -> u64
    ensures { result ≡ fingerprint id }
{
    std::num::wrapping_add_u64(id.shard.prefix, id.seqno as u64)
}

// Whether a number is among others. Each is looked at: without a stop several are compared at once, which `contains` is not (measured).
fn has_number(numbers: &[u64], number: u64) -> bool
    ensures { result ≡ has_number numbers.now number }
{
    let mut has = false;
    for known in numbers {
        has = has | (*known == number);
    }
    has
}

// To contracts it is the list of its ids.
impl Model for TailQueue {
    ghost use Rattle.std.specs.Prelude.{List, take};
    ghost use Rattle.block_records.specs.declared.block_id.BlockId.{BlockId};
    ghost use Rattle.blocks_cache.specs.arrays.TailQueue.{IsQueue};

    ghost Value = { List BlockId };

    ghost view = { λ q. take q.count q.ids };

    ghost invariant = { λ q. IsQueue q.ids q.fingerprints q.count };
}

impl TailQueue {
    // No id.
    #[tactic(auto, using(crate::proofs::arrays::TailQueueLaws::no_ids))]
    fn empty() -> Self
        ensures { result ≡ [] }
    {
        TailQueue {
            ids: [zero_id(); QUEUED_PLACES],
            fingerprints: [0; QUEUED_PLACES],
            count: 0,
        }
    }

    // The id at a place, if one stands there; there are 256 at most.
    fn get(&self, place: usize) -> Option<BlockId>
        ensures id { result ≡ slice_get self.now place }
        ensures few { length self.now ≤ queued_limit }
    {
        self.ids[..self.count].get(place).copied()
    }

    // The same as `fresh_ids`: most ids are known to be new by their fingerprints, so that none is compared.
    #[tactic(auto, using(crate::proofs::arrays::TailRowLaws::all_new, crate::proofs::arrays::TailQueueLaws::queue_prints))]
    fn next_ids(&self, prev: PrevIds) -> PrevIds
        ensures { result ≡ pack_prev_ids (fresh_ids self.now (listed_prev_ids prev)) }
    {
        let known = &self.ids[..self.count];
        let fingerprints = &self.fingerprints[..self.count];
        let first = fingerprint(prev.items[0]);
        let second = fingerprint(prev.items[1]);
        let a = has_number(fingerprints, first);
        let b = has_number(fingerprints, second);
        if a | b | (first == second) | (QUEUED_FULL < known.len()) {
            return fresh_ids(known, prev);
        }
        stored_prev_ids(prev)
    }

    // Of the previous ids those that are not known yet, at the end.
    #[tactic(auto, using(crate::proofs::arrays::TailQueueLaws::queue_added))]
    fn add(&mut self, prev: PrevIds)
        ensures { self.new ≡ self.old ++ fresh_ids self.old (listed_prev_ids prev) }
    {
        let fresh = self.next_ids(prev);
        let count = self.count;
        self.ids[count] = fresh.items[0];
        self.ids[count + 1] = fresh.items[1];
        self.fingerprints[count] = fingerprint(fresh.items[0]);
        self.fingerprints[count + 1] = fingerprint(fresh.items[1]);
        self.count = count + fresh.count;
    }
}

// ===== the walk =====

// One row, and zeros after it.
fn one_row(row: TailIdsRow) -> TailRows
    ensures { result ≡ with_rows (row ∷ []) }
{
    Listed::empty(zero_tail()).spliced(0, 0, row, zero_tail())
}

impl Lookup<'_> {
    // The tops one by one, after the master's own row; one of seqno 0 gives nothing.
    #[tactic(auto, using(crate::proofs::arrays::TailWalkLaws::top_zero))]
    fn take_tops(&self, mc_seqno: u32, first: TailIdsRow, tops: &TopBlocks) -> TailWalk
        ensures { result ≡ fold (take_tail_id self.now.cache.now mc_seqno true) (first_state first) (map top_id (listed_tops tops.now)) }
    {
        let mut tails = one_row(first);
        let mut queue = TailQueue::empty();
        for top in tops.listed() {
            let id = top.block_id;
            if id.seqno == 0 {
                continue;
            }
            match self.cached_block(id) {
                Some(block) => {
                    hold_row(&mut tails, cached_row(id, block.prev_ids));
                    queue.add(block.prev_ids);
                }
                None => hold_row(&mut tails, missing_row(id)),
            }
        }
        TailWalk { tails, queue }
    }

    // Then each id of the queue from its front. A cached block that names the master gives its row.
    #[tactic(auto, using(crate::proofs::arrays::TailWalkLaws::queue_turns))]
    fn take_queued(&self, mc_seqno: u32, walk: TailWalk) -> TailRows
        ensures { result ≡ (take_queued 256 self.now.cache.now mc_seqno 0 walk).tails }
    {
        let TailWalk {
            mut tails,
            mut queue,
        } = walk;
        // An index, since the queue grows while it is read.
        let mut j = 0;
        while let Some(id) = queue.get(j) {
            j += 1;
            if id.seqno == 0 {
                continue;
            }
            let Some(block) = self.cached_block(id) else {
                continue;
            };
            if block.ref_by_mc_seqno == mc_seqno {
                hold_row(&mut tails, cached_row(id, block.prev_ids));
                queue.add(block.prev_ids);
            }
        }
        tails
    }

    // The rows of a master block.
    #[tactic(auto, using(crate::proofs::arrays::TailWalkLaws::tails_walked))]
    fn block_tails(&self, block: &MasterBlock) -> TailRows
        ensures { result ≡ block_tails block.now self.now.cache.now }
    {
        let id = block.entry.block_id;
        let first = cached_row(id, block.entry.prev_ids);
        let walk = self.take_tops(id.seqno, first, &block.tops);
        self.take_queued(id.seqno, walk)
    }
}

// ===== the answer =====

impl SoundCache<'_> {
    // No row up to the zerostate's seqno; above it the rows of the master at the seqno.
    #[tactic(auto, using(crate::proofs::arrays::TailWalkLaws::tails_read))]
    fn read_tails(self, seqno: u32) -> Result<TailRows, Refusal>
        ensures { result ≡ read_tails seqno self.entry.cache.now }
    {
        if seqno <= self.cache.zerostate_mc_seqno {
            return Ok(Listed::empty(zero_tail()));
        }
        let block = self.cache.masters.at(seqno).ok_or(Refusal::NoMaster)?;
        Ok(self.lookup().block_tails(&block))
    }
}

impl Cache {
    // The rows of the master block of a key, zeros in the places that are left.
    #[tactic(auto, using(crate::proofs::arrays::TailIdsLaws::tail_calls))]
    pub fn read_before_tail_ids_of_mc_block(&self, short: BlockIdShort) -> Result<TailRows, Refusal>
        ensures call { unlent_outcome self.now (tails_say result) ≡ call_on self.now (unlent (read_tail_ids short)) }
        ensures zeros { result ≡ zeroed_tails result }
    {
        let sound = self.sound()?;
        check_seqno(short.seqno)?;
        sound.read_tails(short.seqno)
    }
}
