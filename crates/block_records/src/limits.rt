// RULES.md, Limits: the capacities of records, groups and the cache, each with the question that asks for it.

// Previous ids of a block: question 3.
pub const PREV_IDS_LIMIT: usize = 2;

// Top items of a master block: question 3.
pub const TOPS_LIMIT: usize = 8;

// Keys that are given at once, one for the masterchain and one for each shard: question 3.
pub const KEYS_LIMIT: usize = 9;

// Entries of a group: question 8.
pub const ENTRIES_LIMIT: usize = 16;

// Shard groups of a cache: question 8.
pub const SHARDS_LIMIT: usize = 8;

// Last collated ids: question 9.
pub const IDS_LIMIT: usize = 32;

// Places that a lent slice must have: all entries of all shard groups. Question 10.
pub const SLICE_PLACES: usize = 128;

// Ids that an extraction takes: those of the top items, and the previous ids of all shard blocks.
pub const WAITING_PLACES: usize = 264;

// Rows of tail ids: the master's, and one for each shard of a top item or of a group.
pub const ROWS_LIMIT: usize = 17;

// Ids that tail ids queue: the previous ids of all shard blocks.
pub const QUEUED_LIMIT: usize = 256;

// With more than these queued, two further ids might not fit.
pub const QUEUED_FULL: usize = 254;

// Places for them, and two more, so that a block's previous ids can always be written.
pub const QUEUED_PLACES: usize = 258;

// Places of the array from which a slice is lent for a caller that can't lend one.
pub const ARRAY_PLACES: usize = 160;

// The count of shard groups of a cache that is none: it is unsound, so that every call on it is refused.
pub const NO_CACHE_SHARDS: usize = 9;
