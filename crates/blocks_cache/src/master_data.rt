// RULES.md, Master data: the last collated ids, and the applied range.
ghost use Rattle.std.specs.List.{list_all};
ghost use Rattle.std.specs.Prelude.{◌≡◌, length};
ghost use Rattle.block_records.specs.rules.Limits.{ids_limit};
ghost use Rattle.block_records.specs.rules.Lists.{rising};
ghost use Rattle.blocks_cache.specs.arrays.MasterData.{drop_ids_below, drop_ids_from, has_id, has_place_for_id, highest_id, listed_ids, put_id};
ghost use Rattle.blocks_cache.specs.arrays.Stores.{range_end_moved, with_range};
ghost use Rattle.blocks_cache.specs.layout.Cache.{sound_ids};
ghost use Rattle.cache_rules.specs.Model.{id_before, moved_end, moved_start};
ghost use Rattle.cache_rules.specs.Refusals.{id_masterchain, sound_range};

use block_records::block_id::{BlockId, is_zero_id, zero_id};
use block_records::limits::IDS_LIMIT;
use block_records::listed::Listed;
use block_records::range::AppliedRange;

// The last collated ids by seqno, with the applied range.
#[derive(Clone, Copy, Debug, PartialEq, Eq)]
pub struct MasterData {
    pub ids: Listed<BlockId, IDS_LIMIT>,
    pub range: Option<AppliedRange>,
}

// ===== the applied range =====

// The range moved on past a seqno. There is a next seqno wherever it is taken: the seqno is below the end.
fn moved_start(seqno: u32, range: Option<AppliedRange>) -> Option<AppliedRange>
    ensures { result ≡ moved_start seqno range }
{
    let range = range?;
    if seqno < range.start {
        return Some(range);
    }
    if seqno < range.end {
        return Some(AppliedRange {
            start: seqno + 1,
            end: range.end,
        });
    }
    None
}

// The range with a seqno as its end.
fn moved_end(seqno: u32, range: Option<AppliedRange>) -> Option<AppliedRange>
    ensures { result ≡ moved_end seqno range }
{
    let start = range.map_or(seqno, |range| range.start);
    Some(AppliedRange { start, end: seqno })
}

impl MasterData {
    // The range is moved on past a seqno.
    pub(crate) fn move_range_start(&mut self, seqno: u32)
        ensures { self.new ≡ with_range (moved_start seqno self.old.range) self.old }
    {
        self.range = moved_start(seqno, self.range);
    }

    // A seqno becomes the range's end.
    pub(crate) fn move_range_end(&mut self, seqno: u32)
        ensures { self.new ≡ range_end_moved seqno self.old }
    {
        self.range = moved_end(seqno, self.range);
    }
}

// Whether the range's start does not pass its end, nor its end the master mark.
pub(crate) fn sound_range(mark: Option<u32>, range: Option<AppliedRange>) -> bool
    ensures { result ≡ sound_range mark range }
{
    match (range, mark) {
        (None, _) => true,
        (Some(_), None) => false,
        (Some(range), Some(known)) => range.start <= range.end && range.end <= known,
    }
}

// ===== the last collated ids =====

impl MasterData {
    // The last id that is listed.
    #[tactic(auto, using(block_records::proofs::arrays::ListedLaws::last_item))]
    pub(crate) fn highest_id(&self) -> Option<BlockId>
        ensures { result ≡ highest_id self.now }
    {
        self.ids.listed().last().copied()
    }

    // Whether a listed id has the seqno.
    fn has_id(&self, seqno: u32) -> bool
        ensures { result ≡ has_id seqno self.now }
    {
        self.ids.listed().iter().any(|id| id.seqno == seqno)
    }

    // Question 9 of a seqno: an id has it already, or the ids are not full.
    pub(crate) fn has_place_for_id(&self, seqno: u32) -> bool
        ensures { result ≡ has_place_for_id seqno self.now }
    {
        let listed = self.has_id(seqno);
        listed | self.ids.has_place()
    }

    // The id put in by seqno; one of the same seqno is replaced. Where 32 are listed and none is of the seqno, nothing changes.
    pub(crate) fn put_id(&mut self, id: BlockId)
        ensures { self.new ≡ put_id id self.old }
    {
        self.ids = self
            .ids
            .put_by(|known| known.seqno.cmp(&id.seqno), id, zero_id());
    }

    // The listed ids from a seqno on stay.
    pub(crate) fn drop_ids_below(&mut self, seqno: u32)
        ensures { self.new ≡ drop_ids_below seqno self.old }
    {
        self.ids = self.ids.retained(|id| seqno <= id.seqno, zero_id());
    }

    // The listed ids below a seqno stay.
    pub(crate) fn drop_ids_from(&mut self, seqno: u32)
        ensures { self.new ≡ drop_ids_from seqno self.old }
    {
        self.ids = self.ids.retained(|id| id.seqno < seqno, zero_id());
    }

    // ===== question 1 of the ids =====

    // Whether the seqnos rise, each above the one before it.
    fn ids_rise(&self) -> bool
        ensures { result ≡ rising id_before (listed_ids self.now) }
    {
        self.ids.listed().is_sorted_by(|a, b| a.seqno < b.seqno)
    }

    // Whether all ids are masterchain.
    fn ids_masterchain(&self) -> bool
        ensures { result ≡ list_all id_masterchain (listed_ids self.now) }
    {
        self.ids.listed().iter().all(|id| id.shard.is_masterchain())
    }

    // Whether the count is within its places, zeros stand beyond it, the seqnos rise and all ids are masterchain.
    pub(crate) fn sound_ids(&self) -> bool
        ensures sound { result ≡ sound_ids self.now }
        ensures places { length self.now.ids.items ≡ ids_limit }
    {
        let tidy = self.ids.is_tidy(|id| is_zero_id(*id));
        let rise = self.ids_rise();
        let side = self.ids_masterchain();
        tidy & (rise & side)
    }
}
