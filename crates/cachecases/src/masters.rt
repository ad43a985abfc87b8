// RULES.md, Case table: C1 to C11, one function each; the cache that each leaves is compared whole.
use crate::answers::{popped, range, stored};
use crate::expected::{
    bare_cache, collated, collated_block, fresh, group, master, master_data, received,
    received_master,
};
use crate::ids::{mc, mc_other};
use crate::outcome::{Outcome, expect};
use crate::places::listed;
use crate::trial::{Trial, lent, new};
use block_records::block_id::zero_key;
use block_records::entry::{BlockCacheEntryData, CandidateStatus, MasterBlock};
use block_records::questions::Refusal;
use block_records::store_records::zero_prev_ids;
use block_records::top_block::zero_tops;
use blocks_cache::cache::Cache;
use blocks_cache::extraction::SubgraphExtract;
use blocks_cache::stores::BlockCacheStoreResult;
use blocks_cache::validation::{ValidationAnswer, ValidationStatus};
use blocks_group::group::Group;

// Nothing is cached: a peek finds nothing, a pop is refused by 11, m5 is already extracted; the cache stays empty.
pub fn c1() -> Outcome {
    let mut trial = Trial::new();
    let mut out = lent();
    expect(trial.peek(0) == Ok(None))?;
    expect(trial.pop(0, &mut out) == Err(Refusal::NothingApplied))?;
    expect(trial.sync(mc(5), &mut out) == Ok(SubgraphExtract::AlreadyExtracted))?;
    trial.leaves(&new())
}

// m5 received and nothing else: range (5,5), mark 5.
fn m5_alone() -> Cache {
    let m5 = master(mc(5), received(false));
    bare_cache(group(&[m5], Some(5)), master_data(&[], range(5, 5)))
}

// m5 collated, of a kind, and its id: no range, no mark.
fn m5_with(data: BlockCacheEntryData) -> Cache {
    let m5 = master(mc(5), data);
    bare_cache(group(&[m5], None), master_data(&[mc(5)], None))
}

// m5 is received: no flag, it alone is the range, the mark is its seqno.
pub fn c2() -> Outcome {
    let mut trial = Trial::new();
    expect(trial.receive_alone(mc(5)) == stored(false, false, None, range(5, 5)))?;
    trial.leaves(&m5_alone())
}

// m5 once more, and m4 below it, are synced already: nothing changes.
pub fn c3() -> Outcome {
    let mut trial = Trial::new();
    let synced = Ok(BlockCacheStoreResult::Synced);
    expect(trial.receive_alone(mc(5)).is_ok())?;
    expect(trial.receive_alone(mc(5)) == synced)?;
    expect(trial.receive_alone(mc(4)) == synced)?;
    trial.leaves(&m5_alone())
}

// m5 is collated: no flag; the same or another block at its seqno is then refused by 7, and nothing changes.
pub fn c4() -> Outcome {
    let refused = Err(Refusal::AlreadyStored);
    let mut trial = Trial::new();
    expect(trial.collate_alone(mc(5)) == stored(false, false, Some(mc(5)), None))?;
    expect(trial.collate_alone(mc(5)) == refused)?;
    expect(trial.collate_alone(mc_other(5)) == refused)?;
    trial.leaves(&m5_with(fresh()))
}

// m5 is collated, then received: both; its id stays the last one, and it is the range.
pub fn c5() -> Outcome {
    let mut trial = Trial::new();
    expect(trial.collate_alone(mc(5)).is_ok())?;
    let both = stored(true, false, Some(mc(5)), range(5, 5));
    expect(trial.receive_alone(mc(5)) == both)?;
    let m5 = master(mc(5), collated(CandidateStatus::Synced, true, 0, 0));
    let data = master_data(&[mc(5)], range(5, 5));
    trial.leaves(&bare_cache(group(&[m5], Some(5)), data))
}

// m5 is collated, then another block received at its seqno: a mismatch, and the id of m5 is dropped.
pub fn c6() -> Outcome {
    let mut trial = Trial::new();
    expect(trial.collate_alone(mc(5)).is_ok())?;
    expect(trial.receive_alone(mc_other(5)) == stored(false, true, None, range(5, 5)))?;
    let m5 = master(mc_other(5), received(false));
    let data = master_data(&[], range(5, 5));
    trial.leaves(&bare_cache(group(&[m5], Some(5)), data))
}

// m5 is received, then another block collated at its seqno: a mismatch that changes nothing.
pub fn c7() -> Outcome {
    let mut trial = Trial::new();
    expect(trial.receive_alone(mc(5)).is_ok())?;
    expect(trial.collate_alone(mc_other(5)) == stored(false, true, None, range(5, 5)))?;
    trial.leaves(&m5_alone())
}

// m5 is received, then collated: both, and no range is left; a pop still hands it out, as the last, and its id stays.
pub fn c8() -> Outcome {
    let mut trial = Trial::new();
    expect(trial.receive_alone(mc(5)).is_ok())?;
    expect(trial.collate_alone(mc(5)) == stored(true, false, Some(mc(5)), None))?;
    let m5 = MasterBlock {
        entry: master(mc(5), received(true)),
        tops: zero_tops(),
    };
    expect(trial.pop(0, &mut lent()) == popped(m5, 0, 0, true))?;
    trial.leaves(&bare_cache(group(&[], Some(5)), master_data(&[mc(5)], None)))
}

// m5 to m7 are received. A pop from 0 hands out m5, and the range goes on at 6; a pop from 7 hands out m7 as the last, ends the range and leaves m6.
pub fn c9() -> Outcome {
    let mut trial = Trial::new();
    expect(trial.receive_alone(mc(5)).is_ok())?;
    expect(trial.receive_alone(mc(6)).is_ok())?;
    expect(trial.receive_alone(mc(7)).is_ok())?;
    let m5 = received_master(mc(5), zero_tops());
    let m6 = received_master(mc(6), zero_tops());
    let m7 = received_master(mc(7), zero_tops());
    expect(trial.pop(0, &mut lent()) == popped(m5, 0, 0, false))?;
    let two = group(&[m6.entry, m7.entry], Some(7));
    trial.leaves(&bare_cache(two, master_data(&[], range(6, 7))))?;
    expect(trial.pop(7, &mut lent()) == popped(m7, 0, 0, true))?;
    let one = group(&[m6.entry], Some(7));
    trial.leaves(&bare_cache(one, master_data(&[], None)))
}

// m5 is validated with weight 9; a second validation, with weight 12, changes nothing; one that is skipped takes the weight away.
pub fn c10() -> Outcome {
    let mut trial = Trial::new();
    expect(trial.collate_alone(mc(5)).is_ok())?;
    let nine = ValidationStatus::Complete {
        signatures: 1,
        total_weight: 9,
    };
    let validated = CandidateStatus::Validated;
    expect(trial.validate(mc(5), nine) == Ok(ValidationAnswer::Updated(validated)))?;
    let twelve = ValidationStatus::Complete {
        signatures: 2,
        total_weight: 12,
    };
    expect(trial.validate(mc(5), twelve) == Ok(ValidationAnswer::NoChange))?;
    trial.leaves(&m5_with(collated(validated, false, 1, 9)))?;
    let skipped = CandidateStatus::ValidationSkipped;
    let answer = trial.validate(mc(5), ValidationStatus::Skipped);
    expect(answer == Ok(ValidationAnswer::Updated(skipped)))?;
    trial.leaves(&m5_with(collated(skipped, false, 0, 0)))
}

// m7 alone, as it was collated, under the boundary m7; ids 6 and 7.
fn collected_to_7() -> Cache {
    let m7 = collated_block(mc(7), zero_prev_ids());
    let masters = Group {
        boundary: Some(mc(7).as_short_id()),
        ..group(&[m7], None)
    };
    bare_cache(masters, master_data(&[mc(6), mc(7)], None))
}

// m5 to m7 are collated, and m5 and m6 collected; the last master collected is m6, so its id stays, with that of m7.
pub fn c11() -> Outcome {
    let mut trial = Trial::new();
    expect(trial.collate_alone(mc(5)).is_ok())?;
    expect(trial.collate_alone(mc(6)).is_ok())?;
    expect(trial.collate_alone(mc(7)).is_ok())?;
    let to_7 = listed(&[mc(7).as_short_id()], zero_key());
    expect(trial.set_boundary(to_7).is_ok())?;
    expect(trial.collect().is_ok())?;
    trial.leaves(&collected_to_7())
}
