// RULES.md, Pop and Sync extraction: the calls. The blocks are written into a lent slice, from its first place on.
ghost use Rattle.std.specs.Prelude.{◌≡◌, take, drop};
ghost use Rattle.blocks_cache.specs.arrays.Subgraphs.{extract_outcome, lent_places, zeroed_extract};
ghost use Rattle.blocks_cache.specs.layout.Cache.{call_on};
ghost use Rattle.cache_rules.specs.Calls.{pop, sync};

use crate::cache::Cache;
use crate::extraction::SubgraphExtract;
use block_records::block_id::BlockId;
use block_records::entry::BlockCacheEntry;
use block_records::limits::ARRAY_PLACES;
use block_records::questions::Refusal;

// How many places of an array are lent: all of them where fewer are there than asked for.
fn lent_places(lent: usize) -> usize
    ensures { result ≡ lent_places lent }
{
    lent.min(ARRAY_PLACES)
}

impl Cache {
    #[tactic(auto, using(crate::proofs::arrays::SubgraphsLaws::pop_calls))]
    pub fn pop_front_applied_mc_block_subgraph(
        &mut self,
        from: u32,
        out: &mut [BlockCacheEntry],
    ) -> Result<SubgraphExtract, Refusal>
        ensures call { extract_outcome self.new result out.new ≡ call_on self.old (record { request = pop from; lent = out.old }) }
        ensures zeros { result ≡ zeroed_extract result }
    {
        self.check_extract(from, out.len())?;
        self.pop_applied(from, out)
    }

    #[tactic(auto, using(crate::proofs::arrays::SubgraphsLaws::sync_calls))]
    pub fn extract_mc_block_subgraph_for_sync(
        &mut self,
        block_id: BlockId,
        out: &mut [BlockCacheEntry],
    ) -> Result<SubgraphExtract, Refusal>
        ensures call { extract_outcome self.new result out.new ≡ call_on self.old (record { request = sync block_id; lent = out.old }) }
        ensures zeros { result ≡ zeroed_extract result }
    {
        self.check_extract(block_id.seqno, out.len())?;
        Ok(self.extract_at(block_id.seqno, out))
    }

    // Pop for callers that can't lend a slice of records: an array's first places are lent, and the rest stays.
    pub fn pop_to_array(
        &mut self,
        from: u32,
        blocks: &mut [BlockCacheEntry; ARRAY_PLACES],
        lent: usize,
    ) -> Result<SubgraphExtract, Refusal>
        ensures call { extract_outcome self.new result (take (lent_places lent) blocks.new) ≡ call_on self.old (record { request = pop from; lent = take (lent_places lent) blocks.old }) }
        ensures rest { drop (lent_places lent) blocks.new ≡ drop (lent_places lent) blocks.old }
        ensures zeros { result ≡ zeroed_extract result }
    {
        let n = lent_places(lent);
        self.pop_front_applied_mc_block_subgraph(from, &mut blocks[..n])
    }

    // The same of sync extraction.
    pub fn sync_to_array(
        &mut self,
        block_id: BlockId,
        blocks: &mut [BlockCacheEntry; ARRAY_PLACES],
        lent: usize,
    ) -> Result<SubgraphExtract, Refusal>
        ensures call { extract_outcome self.new result (take (lent_places lent) blocks.new) ≡ call_on self.old (record { request = sync block_id; lent = take (lent_places lent) blocks.old }) }
        ensures rest { drop (lent_places lent) blocks.new ≡ drop (lent_places lent) blocks.old }
        ensures zeros { result ≡ zeroed_extract result }
    {
        let n = lent_places(lent);
        self.extract_mc_block_subgraph_for_sync(block_id, &mut blocks[..n])
    }
}
