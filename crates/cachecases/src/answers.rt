// What the cases expect answers to be.
use block_records::block_id::BlockId;
use block_records::entry::MasterBlock;
use block_records::questions::Refusal;
use block_records::range::AppliedRange;
use blocks_cache::extraction::{McBlockSubgraph, SubgraphExtract};
use blocks_cache::stores::BlockCacheStoreResult;

// A store that is made, with its two flags, the last collated id and the range.
pub fn stored(
    received_and_collated: bool,
    block_mismatch: bool,
    last: Option<BlockId>,
    range: Option<AppliedRange>,
) -> Result<BlockCacheStoreResult, Refusal> {
    Ok(BlockCacheStoreResult::Stored {
        received_and_collated,
        block_mismatch,
        last_collated_mc_block_id: last,
        applied_mc_queue_range: range,
    })
}

// The range from one seqno to another, both included.
pub fn range(start: u32, end: u32) -> Option<AppliedRange> {
    Some(AppliedRange { start, end })
}

// A master handed out whole, how many blocks beside it and how many ids taken, and whether it was the last.
pub fn popped(
    master: MasterBlock,
    joined: usize,
    taken: usize,
    last: bool,
) -> Result<SubgraphExtract, Refusal> {
    let subgraph = McBlockSubgraph {
        master,
        joined,
        taken,
    };
    Ok(SubgraphExtract::Popped { subgraph, last })
}
