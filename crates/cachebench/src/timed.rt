// A call, timed, and its answer.
use crate::clock::processor_time;
use block_records::entry::{BlockCacheEntry, zero_entry};
use block_records::limits::{ARRAY_PLACES, SLICE_PLACES};
use block_records::questions::Refusal;
use blocks_cache::cache::Cache;
use replay_calls::answers::{Extracted, Peeked, Stored, Tails, Validated, sound_answer};
use replay_calls::calls::{make, validation_status};
use replay_calls::state::Session;
use replay_text::commands::Call;
use std::fmt;
use std::time::Duration;

// Makes calls and says how long they took: so often, or once and in silence.
#[derive(Clone, Copy)]
pub struct Timer {
    pub clock: HostRuntime,
    pub times: Option<u32>,
}

// What a call answered, and what all of them took.
#[derive(Clone, Copy)]
struct Timed<T> {
    answer: T,
    spent: Duration,
}

impl Timer {
    // The call, made so often.
    fn time<T: Copy, F: FnMut() -> T>(self, mut call: F) -> Timed<T>
        requires { F.IsAlwaysCallable call }
    {
        let start = processor_time(self.clock);
        for _ in 1..self.times.unwrap_or(1) {
            let _ = call();
        }
        let answer = call();
        let spent = processor_time(self.clock).saturating_sub(start);
        Timed { answer, spent }
    }

    // The answer, and the line about a timed call.
    fn answer<D: fmt::Display + Drop>(
        self,
        session: &mut Session<'_>,
        answer: Result<D, Refusal>,
        spent: Duration,
    ) {
        session.answer(answer);
        if let Some(times) = self.times {
            let spent = spent.as_micros();
            session.print(format_args!("time {times} calls {spent} microseconds"));
        }
    }
}

// A call that changes the cache is made each time on the cache as it was given: that copy is timed with it.
fn run_store(timer: Timer, session: &mut Session<'_>, cache: &mut Cache, call: &Call) {
    let given = *cache;
    match *call {
        Call::StoreCollated(candidate) => {
            let timed = timer.time(|| {
                *cache = given;
                cache.store_collated(candidate)
            });
            timer.answer(
                session,
                timed.answer.map(|stored| Stored(stored)),
                timed.spent,
            );
        }
        Call::StoreReceived(block) => {
            let timed = timer.time(|| {
                *cache = given;
                cache.store_received(block)
            });
            timer.answer(
                session,
                timed.answer.map(|stored| Stored(stored)),
                timed.spent,
            );
        }
        Call::Validation(id, verdict) => {
            let status = validation_status(verdict);
            let timed = timer.time(|| {
                *cache = given;
                cache.store_master_block_validation_result(id, status)
            });
            timer.answer(
                session,
                timed.answer.map(|validated| Validated(validated)),
                timed.spent,
            );
        }
        _ => {}
    }
}

fn run_collection(timer: Timer, session: &mut Session<'_>, cache: &mut Cache, call: &Call) {
    let given = *cache;
    let timed = match *call {
        Call::Boundary(keys) => timer.time(|| {
            *cache = given;
            cache.set_gc_to_boundary(keys)
        }),
        Call::RemoveNext(keys) => timer.time(|| {
            *cache = given;
            cache.remove_next_collated_blocks_from_cache(keys)
        }),
        Call::Collect => timer.time(|| {
            *cache = given;
            cache.gc_prev_blocks()
        }),
        _ => return,
    };
    timer.answer(session, timed.answer.map(|_| "done"), timed.spent);
}

fn run_extraction(timer: Timer, session: &mut Session<'_>, cache: &mut Cache, call: &Call) {
    let given = *cache;
    let mut blocks = [zero_entry(); ARRAY_PLACES];
    let timed = match *call {
        Call::Sync(id) => timer.time(|| {
            *cache = given;
            cache.sync_to_array(id, &mut blocks, SLICE_PLACES)
        }),
        Call::Pop(from) => timer.time(|| {
            *cache = given;
            cache.pop_to_array(from, &mut blocks, SLICE_PLACES)
        }),
        _ => return,
    };
    let blocks: &[BlockCacheEntry] = &blocks;
    let answer = timed.answer.map(|extract| Extracted { extract, blocks });
    timer.answer(session, answer, timed.spent);
}

// What leaves the cache as it is.
fn run_look(timer: Timer, session: &mut Session<'_>, cache: &Cache, call: &Call) {
    match *call {
        Call::Peek(from) => {
            let timed = timer.time(|| cache.peek_front_applied_mc_block_subgraph(from));
            timer.answer(
                session,
                timed.answer.map(|found| Peeked(found)),
                timed.spent,
            );
        }
        Call::TailIds(key) => {
            let timed = timer.time(|| cache.read_before_tail_ids_of_mc_block(key));
            timer.answer(session, timed.answer.map(|rows| Tails(rows)), timed.spent);
        }
        Call::Sound => {
            let timed = timer.time(|| cache.is_sound());
            timer.answer(session, Ok(sound_answer(timed.answer)), timed.spent);
        }
        _ => {}
    }
}

// A new cache is made once, and not timed. Each kind of answer has a function of its own, which chooses among its calls once more: a closure that is handed
// on to another did not prove.
pub fn run_call(timer: Timer, session: &mut Session<'_>, cache: &mut Cache, call: &Call) {
    match call {
        Call::New(zerostate) => make(session, cache, *zerostate),
        Call::Pop(_) | Call::Sync(_) => run_extraction(timer, session, cache, call),
        Call::Peek(_) | Call::TailIds(_) | Call::Sound => run_look(timer, session, cache, call),
        Call::Boundary(_) | Call::RemoveNext(_) | Call::Collect => {
            run_collection(timer, session, cache, call);
        }
        _ => run_store(timer, session, cache, call),
    }
}
