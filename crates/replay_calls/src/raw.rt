// A record of the cache set as it stands, tested in no way.
use block_records::entry::BlockCacheEntry;
use block_records::top_block::TopBlocks;
use blocks_cache::cache::{Cache, empty};
use blocks_group::group::Group;
use replay_text::dumped::Marks;
use replay_text::raw::{GroupPlace, Raw, RawGroup};

pub fn set_marks<B>(group: &mut Group<B>, marks: &Marks) {
    group.mark = marks.mark;
    group.boundary = marks.boundary;
}

// The element of a place, if there is such a place.
pub fn set<T: Copy>(places: &mut [T], place: usize, element: &T) {
    if place < places.len() {
        places[place] = *element;
    }
}

fn set_group(cache: &mut Cache, group: &RawGroup, count: usize, marks: &Marks) {
    match *group {
        RawGroup::Masters => {
            cache.masters.entries.count = count;
            set_marks(&mut cache.masters, marks);
        }
        RawGroup::Shard(place, shard) => {
            if let Some(held) = cache.shards.items.get_mut(place) {
                held.shard = shard;
                held.group.entries.count = count;
                set_marks(&mut held.group, marks);
            }
        }
    }
}

// An entry in a place of its group; a master's top items stay.
fn set_entry(cache: &mut Cache, group: GroupPlace, place: usize, entry: &BlockCacheEntry) {
    match group {
        GroupPlace::Masters => {
            if let Some(block) = cache.masters.entries.items.get_mut(place) {
                block.entry = *entry;
            }
        }
        GroupPlace::Shard(shard) => {
            if let Some(held) = cache.shards.items.get_mut(shard) {
                set(&mut held.group.entries.items, place, entry);
            }
        }
    }
}

// A master's top items in their place; its entry stays.
fn set_tops(cache: &mut Cache, place: usize, tops: &TopBlocks) {
    if let Some(block) = cache.masters.entries.items.get_mut(place) {
        block.tops = *tops;
    }
}

// A place of the slice is none of the cache.
pub fn set_raw(cache: &mut Cache, raw: &Raw) {
    match raw {
        Raw::Zero => *cache = empty(0).cache,
        Raw::Head {
            zerostate,
            range,
            ids,
            shards,
        } => {
            cache.zerostate_mc_seqno = *zerostate;
            cache.data.range = *range;
            cache.data.ids.count = *ids;
            cache.shards.count = *shards;
        }
        Raw::Id { place, id } => set(&mut cache.data.ids.items, *place, id),
        Raw::Group {
            group,
            count,
            marks,
        } => set_group(cache, group, *count, marks),
        Raw::Entry {
            group,
            place,
            entry,
        } => set_entry(cache, *group, *place, entry),
        Raw::Tops { place, tops } => set_tops(cache, *place, tops),
        Raw::Slice { .. } => {}
    }
}
