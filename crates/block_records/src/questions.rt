// RULES.md, Questions: 2 to 4 of a record and of keys, in their order, and what refuses a call.
ghost use Rattle.std.specs.List.{list_all};
ghost use Rattle.std.specs.Prelude.{◌≡◌};
ghost use Rattle.block_records.specs.layout.Questions.{held_entry_fits, held_shard_entry_fits};
ghost use Rattle.block_records.specs.rules.BlockId.{listed_keys, listed_prev_ids, listed_tops};
ghost use Rattle.block_records.specs.rules.Questions.{check_candidate, check_keys, check_received, check_record, counts_fit, id_fits, key_fits, keys_fit, links_fit, previous_fits, refusal_number, seqno_fits, seqnos_fit, top_fits, top_outside};

use crate::block_id::{BlockId, BlockIdShort};
use crate::entry::BlockCacheEntry;
use crate::limits::{KEYS_LIMIT, PREV_IDS_LIMIT, TOPS_LIMIT};
use crate::store_records::{BlockCandidate, Keys, PrevIds, ReceivedBlock};
use crate::top_block::{TopBlock, TopBlocks};
use std::fmt;

// Why a call is refused: the first question whose answer is no, by its number.
#[derive(Clone, Copy, Debug, PartialEq, Eq)]
pub enum Refusal {
    // the cache is not sound
    Unsound = 1,
    // a seqno is the largest number of 32 bits
    SeqnoLimit = 2,
    // previous ids, top items or keys are more than their limits, or a shard block has top items
    TooMany = 3,
    // a previous id is not below its block or not on its side, or a top item is a master
    WrongLink = 4,
    // the reference lies below the zerostate
    BeforeZerostate = 5,
    // a received master names another block than itself
    ForeignReference = 6,
    // a block that was stored in the same way stands at the seqno
    AlreadyStored = 7,
    // no place is left for the block
    NoRoom = 8,
    // no place is left for the id of a master
    NoIdRoom = 9,
    // the lent slice has too few places
    SliceTooShort = 10,
    // no applied master is there to be taken
    NothingApplied = 11,
    // no master stands at the seqno
    NoMaster = 12,
}

impl Refusal {
    // The number of the question.
    pub fn number(self) -> u32
        ensures { result ≡ refusal_number self }
    {
        self as u32
    }
}

impl fmt::Display for Refusal {
    fn fmt<W: fmt::Write>(&self, f: &mut fmt::Formatter<W>) -> fmt::Result {
        let number = self.number();
        write!(f, "refused {number}")
    }
}

// ===== question 2: seqnos =====

pub fn seqno_fits(seqno: u32) -> bool
    ensures { result ≡ seqno_fits seqno }
{
    seqno < u32::MAX
}

pub fn id_fits(id: BlockId) -> bool
    ensures { result ≡ id_fits id }
{
    seqno_fits(id.seqno)
}

pub fn key_fits(short: BlockIdShort) -> bool
    ensures { result ≡ key_fits short }
{
    seqno_fits(short.seqno)
}

fn top_fits(top: TopBlock) -> bool
    ensures { result ≡ top_fits top }
{
    seqno_fits(top.ref_by_mc_seqno) && id_fits(top.block_id)
}

// Of the ids below the count, of every place where the count is past them.
fn prev_ids_fit(prev: PrevIds) -> bool
    ensures { result ≡ list_all id_fits (listed_prev_ids prev) }
{
    prev.listed().iter().all(|id| id_fits(*id))
}

fn tops_fit(tops: TopBlocks) -> bool
    ensures { result ≡ list_all top_fits (listed_tops tops) }
{
    tops.listed().iter().all(|top| top_fits(*top))
}

// Question 2 of a record's id, reference seqno, previous ids and top items.
fn seqnos_fit(id: BlockId, reference: u32, prev: PrevIds, tops: TopBlocks) -> bool
    ensures { result ≡ seqnos_fit id reference (listed_prev_ids prev) (listed_tops tops) }
{
    id_fits(id) && seqno_fits(reference) && prev_ids_fit(prev) && tops_fit(tops)
}

// Question 2 of keys.
fn keys_fit(keys: Keys) -> bool
    ensures { result ≡ keys_fit (listed_keys keys) }
{
    keys.listed().iter().all(|key| key_fits(*key))
}

// ===== question 3: counts =====

// Question 3 of a record's id and the counts of its previous ids and top items.
fn counts_fit(id: BlockId, previous: usize, tops: usize) -> bool
    ensures { result ≡ counts_fit id previous tops }
{
    previous <= PREV_IDS_LIMIT && tops <= TOPS_LIMIT && (id.shard.is_masterchain() || tops == 0)
}

// ===== question 4: links =====

fn previous_fits(id: BlockId, previous: BlockId) -> bool
    ensures { result ≡ previous_fits id previous }
{
    previous.seqno < id.seqno && previous.shard.is_masterchain() == id.shard.is_masterchain()
}

fn top_outside(top: TopBlock) -> bool
    ensures { result ≡ top_outside top }
{
    !top.block_id.shard.is_masterchain()
}

fn prev_links_fit(id: BlockId, prev: PrevIds) -> bool
    ensures { result ≡ list_all (previous_fits id) (listed_prev_ids prev) }
{
    prev.listed().iter().all(|prev| previous_fits(id, *prev))
}

fn tops_outside(tops: TopBlocks) -> bool
    ensures { result ≡ list_all top_outside (listed_tops tops) }
{
    tops.listed().iter().all(|top| top_outside(*top))
}

// Question 4 of a record's id, previous ids and top items.
fn links_fit(id: BlockId, prev: PrevIds, tops: TopBlocks) -> bool
    ensures { result ≡ links_fit id (listed_prev_ids prev) (listed_tops tops) }
{
    prev_links_fit(id, prev) && tops_outside(tops)
}

// ===== the first no =====

// Questions 2 to 4 of a record, in their order.
fn check_record(id: BlockId, reference: u32, prev: PrevIds, tops: TopBlocks) -> Result<(), Refusal>
    ensures { result ≡ check_record id reference prev tops }
{
    if !seqnos_fit(id, reference, prev, tops) {
        return Err(Refusal::SeqnoLimit);
    }
    if !counts_fit(id, prev.count, tops.count) {
        return Err(Refusal::TooMany);
    }
    if !links_fit(id, prev, tops) {
        return Err(Refusal::WrongLink);
    }
    Ok(())
}

pub fn check_candidate(c: BlockCandidate) -> Result<(), Refusal>
    ensures { result ≡ check_candidate c }
{
    check_record(c.block_id, c.ref_by_mc_seqno, c.prev_ids, c.top_blocks)
}

pub fn check_received(b: ReceivedBlock) -> Result<(), Refusal>
    ensures { result ≡ check_received b }
{
    check_record(b.block_id, b.ref_block_id.seqno, b.prev_ids, b.top_blocks)
}

// Questions 2 and 3 of keys.
pub fn check_keys(keys: Keys) -> Result<(), Refusal>
    ensures { result ≡ check_keys keys }
{
    if !keys_fit(keys) {
        return Err(Refusal::SeqnoLimit);
    }
    if KEYS_LIMIT < keys.count {
        return Err(Refusal::TooMany);
    }
    Ok(())
}

// Questions 2 to 4 at once: whether all are true of a cached entry with its top items.
#[tactic(auto, using(crate::proofs::layout::QuestionLaws::checked_fits))]
pub fn held_entry_fits(entry: BlockCacheEntry, tops: TopBlocks) -> bool
    ensures { result ≡ held_entry_fits entry tops }
{
    check_record(entry.block_id, entry.ref_by_mc_seqno, entry.prev_ids, tops).is_ok()
}

// The same of a shard's entry, beside which no top items stand: no list of none is made to ask it.
#[tactic(auto, unfolding(crate::specs::layout::Questions::held_entry_fits, crate::specs::layout::Zeros::zero_tops))]
pub fn held_shard_entry_fits(entry: BlockCacheEntry) -> bool
    ensures { result ≡ held_shard_entry_fits entry }
{
    let id = id_fits(entry.block_id);
    let reference = seqno_fits(entry.ref_by_mc_seqno);
    let previous = prev_ids_fit(entry.prev_ids);
    let few = entry.prev_ids.count <= PREV_IDS_LIMIT;
    let links = prev_links_fit(entry.block_id, entry.prev_ids);
    id & (reference & (previous & (few & links)))
}
