// How a case came out.

// Something else happened than the case expects.
#[derive(Clone, Copy, Debug)]
pub struct Unexpected;

pub type Outcome = Result<(), Unexpected>;

// A case goes on only while what it expects holds.
pub fn expect(holds: bool) -> Outcome {
    if holds { Ok(()) } else { Err(Unexpected) }
}
