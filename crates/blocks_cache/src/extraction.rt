// RULES.md, Extraction, Pop and Sync extraction: the walk, and what it makes of the cache and of a slice that has places enough.
ghost use Rattle.std.specs.Prelude.{◌≡◌, ◌≤◌, length, map, true};
ghost use Rattle.block_records.specs.layout.Entry.{pack_entry, pack_tops};
ghost use Rattle.block_records.specs.layout.Listed.{listed, packed};
ghost use Rattle.block_records.specs.layout.Zeros.{zero_id};
ghost use Rattle.block_records.specs.rules.Limits.{slice_places, tops_limit, waiting_places};
ghost use Rattle.block_records.specs.rules.Questions.{first_no, passed};
ghost use Rattle.blocks_cache.specs.arrays.Extraction.{compact_group, compact_shard, compact_shards, held_starting_ids, held_starting_items, held_walk, pack_extraction};
ghost use Rattle.blocks_cache.specs.arrays.Stores.{with_range};
ghost use Rattle.blocks_cache.specs.arrays.Subgraphs.{extract_outcome, extract_questions, handed_out, move_applied_start, subgraph_of, zeroed_extract};
ghost use Rattle.blocks_cache.specs.layout.Cache.{pack_outcome, sound_cache, view};
ghost use Rattle.blocks_group.specs.rules.Group.{at_seqno};
ghost use Rattle.cache_rules.specs.Effects.{at_front, outcome_of, pop_entry, sync_entry};
ghost use Rattle.cache_rules.specs.Model.{first_applied};

use crate::cache::{Cache, ShardGroup, Shards};
use crate::lookup::{BlockIndex, GroupSeqnos};
use crate::master_data::MasterData;
use crate::questions::{SoundCache, check_seqno};
use block_records::block_id::{BlockId, zero_id};
use block_records::entry::{BlockCacheEntry, MasterBlock, held_applied, zero_entry};
use block_records::limits::{SHARDS_LIMIT, SLICE_PLACES, WAITING_PLACES};
use block_records::listed::Listed;
use block_records::questions::Refusal;
use block_records::top_block::{TopBlocks, zero_top};
use blocks_group::group::{Group, ShardBlocks};
use blocks_group::mark::refreshed_mark;

// What an extraction leaves of the shard groups, the blocks that joined, the newest first, and the number of the ids taken.
#[derive(Clone, Copy, Debug, PartialEq, Eq)]
pub(crate) struct Extraction {
    pub shards: Shards,
    pub blocks: Listed<BlockCacheEntry, SLICE_PLACES>,
    pub taken: usize,
}

// The ids that wait, with those that were taken before them: a list in fixed places, as records are, so that no memory is asked for.
type WaitingList = Listed<BlockId, WAITING_PLACES>;

// ===== the starting ids =====

// The listed top items from which extraction starts.
pub(crate) fn held_starting_items(zerostate: u32, tops: &TopBlocks) -> TopBlocks
    ensures { result ≡ pack_tops (held_starting_items zerostate tops.now) }
{
    tops.retained(
        |item| item.updated && zerostate < item.ref_by_mc_seqno,
        zero_top(),
    )
}

// Their ids wait first.
fn held_starting_ids(zerostate: u32, tops: &TopBlocks) -> WaitingList
    ensures ids { result ≡ packed waiting_places zero_id (held_starting_ids zerostate tops.now) }
    ensures few { result.count ≤ tops_limit }
{
    let mut items = [zero_id(); WAITING_PLACES];
    let starting = held_starting_items(zerostate, tops);
    for (i, item) in starting.listed().iter().enumerate() {
        items[i] = item.block_id;
    }
    Listed {
        count: starting.count,
        items,
    }
}

// ===== what is left =====

// The entries that are still cached, moved together.
fn compact_group(group: &ShardBlocks, seqnos: &GroupSeqnos) -> ShardBlocks
    ensures { result ≡ compact_group group.now seqnos.now }
{
    let blocks: &[BlockCacheEntry] = &group.entries.items;
    let mut entries = Listed::empty(zero_entry());
    for (i, seqno) in seqnos.entries.iter().enumerate() {
        if seqno.is_some() {
            entries.items[entries.count] = blocks[i];
            entries.count += 1;
        }
    }
    Group {
        mark: seqnos.mark,
        boundary: group.boundary,
        entries,
    }
}

fn compact_shard(held: &ShardGroup, seqnos: &GroupSeqnos) -> ShardGroup
    ensures { result ≡ compact_shard held.now seqnos.now }
{
    ShardGroup {
        shard: held.shard,
        group: compact_group(&held.group, seqnos),
    }
}

fn compact_shards(shards: &Shards, seqnos: &[GroupSeqnos; SHARDS_LIMIT]) -> Shards
    ensures count { result.count ≡ shards.now.count }
    ensures items { result.items ≡ compact_shards shards.now.items seqnos.now }
{
    Listed {
        count: shards.count,
        items: std::array::from_fn(|i| compact_shard(&shards.items[i], &seqnos[i])),
    }
}

// ===== the walk =====

impl SoundCache<'_> {
    // Each id that waits is looked up by its key. A block that names M joins, adds its previous ids to the end and refreshes its group's mark; any other block found is lost.
    #[tactic(auto, using(crate::proofs::arrays::ExtractionRun::absent_turn, crate::proofs::arrays::ExtractionRun::read_foreign))]
    fn held_walk(self, master: &MasterBlock) -> Extraction
        ensures { result ≡ pack_extraction (held_walk master.now self.entry.cache.now) }
    {
        let cache = self.cache;
        let mut index = BlockIndex::of(&cache.shards);
        let mut waiting = held_starting_ids(cache.zerostate_mc_seqno, &master.tops);
        let mut joined = Listed::empty(zero_entry());
        let mut head = 0;
        // The list grows while it is read: no iterator goes over it.
        while head < waiting.count {
            let id = waiting.items[head];
            head += 1;
            let Some((at, place)) = index.place(id) else {
                continue;
            };
            let block = &cache.shards.items[at].group.entries.items[place];
            let group = &mut index.seqnos[at];
            group.entries[place] = None;
            if block.ref_by_mc_seqno != master.entry.block_id.seqno {
                continue;
            }
            group.mark = refreshed_mark(id.seqno, group.mark);
            joined.items[joined.count] = *block;
            joined.count += 1;
            let previous = block.prev_ids.listed();
            let start = waiting.count;
            let end = start + previous.len();
            waiting.items[start..end].copy_from_slice(previous);
            waiting.count = end;
        }
        let count = joined.count;
        joined.items[0..count].reverse();
        Extraction {
            shards: compact_shards(&cache.shards, &index.seqnos),
            blocks: joined,
            taken: head,
        }
    }
}

// ===== what is handed out =====

// M with its top items, the number of blocks beside it and of ids taken.
#[derive(Clone, Copy, Debug, PartialEq, Eq)]
pub struct McBlockSubgraph {
    pub master: MasterBlock,
    pub joined: usize,
    pub taken: usize,
}

#[derive(Clone, Copy, Debug, PartialEq, Eq)]
pub enum SubgraphExtract {
    Popped {
        subgraph: McBlockSubgraph,
        last: bool,
    },
    Extracted(McBlockSubgraph),
    AlreadyExtracted,
}

// The blocks that joined go over the front of the slice; what stands after them stays.
fn put_at_front(blocks: &Listed<BlockCacheEntry, SLICE_PLACES>, out: &mut [BlockCacheEntry])
    requires { length (listed blocks.now) ≤ length out.old }
    ensures { out.new ≡ at_front (listed blocks.now) out.old }
{
    let joined = blocks.listed();
    out[..joined.len()].copy_from_slice(joined);
}

impl MasterData {
    // The range is moved on past M, if M is applied.
    fn move_applied_start(&mut self, master: &MasterBlock)
        ensures { self.new ≡ with_range (move_applied_start self.old.range master.now) self.old }
    {
        if held_applied(master.entry) {
            self.move_range_start(master.entry.block_id.seqno);
        }
    }
}

impl Cache {
    // Questions 1, 2 and 10, which both ask.
    pub(crate) fn check_extract(&self, seqno: u32, places: usize) -> Result<(), Refusal>
        ensures { result ≡ passed (first_no (extract_questions self.now seqno places)) }
    {
        self.check_sound()?;
        check_seqno(seqno)?;
        if places < SLICE_PLACES {
            return Err(Refusal::SliceTooShort);
        }
        Ok(())
    }

    // M leaves with its subgraph, whose blocks go into the slice; the ids from M's seqno on stay, and so does the range. This and the two below change the
    // cache, so they ask that it is sound: a `SoundCache` borrows it.
    #[tactic(auto, using(crate::proofs::arrays::SubgraphsLaws::walk_blocks))]
    fn hand_out(&mut self, master: MasterBlock, out: &mut [BlockCacheEntry]) -> McBlockSubgraph
        requires sound { sound_cache self.old ≡ true }
        requires places { slice_places ≤ length out.old }
        ensures subgraph { result ≡ subgraph_of master (held_walk master self.old) }
        ensures cache { self.new ≡ handed_out master (held_walk master self.old) self.old }
        ensures blocks { out.new ≡ at_front (map pack_entry (held_walk master self.old).joined) out.old }
    {
        let seqno = master.entry.block_id.seqno;
        let extraction = SoundCache { cache: self }.held_walk(&master);
        put_at_front(&extraction.blocks, out);
        self.masters = self.masters.removed(seqno);
        self.data.drop_ids_below(seqno);
        self.shards = extraction.shards;
        McBlockSubgraph {
            master,
            joined: extraction.blocks.count,
            taken: extraction.taken,
        }
    }

    // Pop: the first applied master from a seqno on is taken out, and the range is moved on past it.
    #[tactic(auto, using(crate::proofs::arrays::SubgraphsLaws::pop_effects))]
    pub(crate) fn pop_applied(
        &mut self,
        from: u32,
        out: &mut [BlockCacheEntry],
    ) -> Result<SubgraphExtract, Refusal>
        requires sound { sound_cache self.old ≡ true }
        requires places { slice_places ≤ length out.old }
        ensures effect { extract_outcome self.new result out.new ≡ pack_outcome (outcome_of (pop_entry (first_applied from (view self.old)) (view self.old)) out.old) }
        ensures zeros { result ≡ zeroed_extract result }
    {
        let master = self
            .masters
            .first_applied(from)
            .ok_or(Refusal::NothingApplied)?;
        let seqno = master.entry.block_id.seqno;
        let last = !self.masters.any_applied_above(seqno);
        let subgraph = self.hand_out(master, out);
        self.data.move_range_start(seqno);
        Ok(SubgraphExtract::Popped { subgraph, last })
    }

    // Sync extraction: the master at a seqno is taken out and refreshes the mark; if it is applied, the range is moved on past it.
    #[tactic(auto, using(crate::proofs::arrays::SubgraphsLaws::sync_effects))]
    pub(crate) fn extract_at(&mut self, seqno: u32, out: &mut [BlockCacheEntry]) -> SubgraphExtract
        requires sound { sound_cache self.old ≡ true }
        requires places { slice_places ≤ length out.old }
        ensures effect { extract_outcome self.new (Ok result) out.new ≡ pack_outcome (outcome_of (sync_entry (at_seqno seqno (view self.old).masters.entries) (view self.old)) out.old) }
        ensures zeros { Ok result ≡ zeroed_extract (Ok result) }
    {
        let Some(master) = self.masters.at(seqno) else {
            return SubgraphExtract::AlreadyExtracted;
        };
        let seqno = master.entry.block_id.seqno;
        let subgraph = self.hand_out(master, out);
        self.masters = self.masters.refreshed(seqno);
        self.data.move_applied_start(&master);
        SubgraphExtract::Extracted(subgraph)
    }
}
