// RULES.md, Case table: C1 to C14, run on `blocks_cache`. Prints how many cases ran and how many came out wrong.
#![tactic(auto)]

mod answers;
mod expected;
mod ids;
mod masters;
mod outcome;
#[cfg(test)]
mod own_block;
mod places;
mod subgraphs;
mod trial;

use crate::masters::{c1, c2, c3, c4, c5, c6, c7, c8, c9, c10, c11};
use crate::outcome::Outcome;
use crate::subgraphs::{c12, c13, c14};

fn main(rt: HostRuntime) {
    let outcomes: [Outcome; 14] = [
        c1(),
        c2(),
        c3(),
        c4(),
        c5(),
        c6(),
        c7(),
        c8(),
        c9(),
        c10(),
        c11(),
        c12(),
        c13(),
        c14(),
    ];
    let ran = outcomes.len();
    let bad = outcomes.iter().filter(|outcome| outcome.is_err()).count();
    // where the line can't be written, nobody is left to be told
    let _ = println!(rt; "cases {ran} bad {bad}");
}
