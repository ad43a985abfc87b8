// What a refusal's number means: the one table of the questions' texts.
use crate::scanner::Scanner;
use crate::spelled::Spelled;
use crate::unexpected::{Expected, Unexpected};
use block_records::questions::Refusal;
use std::fmt;

// In the order of their numbers.
const QUESTIONS: [Refusal; 12] = [
    Refusal::Unsound,
    Refusal::SeqnoLimit,
    Refusal::TooMany,
    Refusal::WrongLink,
    Refusal::BeforeZerostate,
    Refusal::ForeignReference,
    Refusal::AlreadyStored,
    Refusal::NoRoom,
    Refusal::NoIdRoom,
    Refusal::SliceTooShort,
    Refusal::NothingApplied,
    Refusal::NoMaster,
];

// The question whose no is a refusal.
#[derive(Clone, Copy)]
pub struct Question(Refusal);

impl Spelled for Question {
    fn read(scanner: &mut Scanner<'_>) -> Result<Self, Unexpected> {
        let missing = scanner.unexpected(Expected::Question);
        let number = scanner.number(1, u32::MAX, Expected::Question)?;
        QUESTIONS
            .into_iter()
            .find(|refusal| refusal.number() == number)
            .map(|refusal| Question(refusal))
            .ok_or(missing)
    }

    fn print<W: fmt::Write>(&self, f: &mut fmt::Formatter<W>) -> fmt::Result {
        let number = self.0.number();
        write!(f, "{number}")
    }
}

impl Question {
    // What is asked.
    fn text(self) -> &'static str {
        match self.0 {
            Refusal::Unsound =>
                "is the cache sound: within its limits, its lists in order, its parts agreeing, zeros in spare places?",
            Refusal::SeqnoLimit => "is each seqno that is given less than 4294967295?",
            Refusal::TooMany =>
                "are there at most 2 previous ids, 8 top items and 9 keys, and no top item in a shard block?",
            Refusal::WrongLink =>
                "are all previous ids of the masterchain if the block is, and of shards if not, and below its seqno, and all top items of shards?",
            Refusal::BeforeZerostate =>
                "is the reference seqno of a received block no smaller than the zerostate's?",
            Refusal::ForeignReference =>
                "has a received master itself as its reference, both hashes too?",
            Refusal::AlreadyStored =>
                "is no entry at the block's shard and seqno, or one of the other kind only?",
            Refusal::NoRoom =>
                "is a place free in the block's group, and one for the group where it is new?",
            Refusal::NoIdRoom => "is there room among the 32 last collated ids of masters?",
            Refusal::SliceTooShort => "has the lent slice at least 128 places?",
            Refusal::NothingApplied => "is an applied master of that seqno or above cached?",
            Refusal::NoMaster =>
                "is a master cached at that seqno, if it is above the zerostate's?",
        }
    }

    // Why the answer is usually no.
    fn usual_causes(self) -> &'static str {
        match self.0 {
            Refusal::Unsound =>
                "the cache was not made by these calls alone: it was loaded, set by raw lines, or read from damaged memory; dump raw shows all of it",
            Refusal::SeqnoLimit => "a seqno that wrapped below 0, or a filler of all ones",
            Refusal::TooMany =>
                "a list too long, or a master block with top items whose workchain was read wrong, so that it counts as a shard block",
            Refusal::WrongLink =>
                "a previous id or top item whose workchain was read wrong, or lists of another block",
            Refusal::BeforeZerostate =>
                "the cache was made with another network's or a later zerostate",
            Refusal::ForeignReference =>
                "the reference of another block was passed, or a hash was cut or reversed",
            Refusal::AlreadyStored =>
                "the block was stored before by the same call; two stores of one height, as after a restart or a reorganised shard",
            Refusal::NoRoom =>
                "16 blocks of one shard or 8 shards wait: nothing is popped, synced or collected; see the marks and boundaries in dump",
            Refusal::NoIdRoom =>
                "masters were collated and none was ever received or synced; the ids leave when masters are handed out",
            Refusal::SliceTooShort =>
                "the caller lends the number of blocks that it expects and not 128",
            Refusal::NothingApplied =>
                "no master was received, or it was handed out already, or stored as a shard block since its workchain was read wrong; peek and dump show it",
            Refusal::NoMaster =>
                "the master was handed out or collected, or the seqno is one of a shard",
        }
    }

    pub fn explained(self) -> Explained {
        Explained(self)
    }
}

impl fmt::Display for Question {
    fn fmt<W: fmt::Write>(&self, f: &mut fmt::Formatter<W>) -> fmt::Result {
        let number = self.0.number();
        let text = self.text();
        write!(f, "question {number}: {text}")
    }
}

// A question and the usual causes of a no.
#[derive(Clone, Copy)]
pub struct Explained(Question);

impl fmt::Display for Explained {
    fn fmt<W: fmt::Write>(&self, f: &mut fmt::Formatter<W>) -> fmt::Result {
        let question = self.0;
        let causes = question.usual_causes();
        write!(f, "{question}\nusual causes: {causes}")
    }
}

// All questions, a line each.
#[derive(Clone, Copy)]
pub(crate) struct Questions;

impl fmt::Display for Questions {
    fn fmt<W: fmt::Write>(&self, f: &mut fmt::Formatter<W>) -> fmt::Result {
        for refusal in QUESTIONS {
            let question = Question(refusal);
            write!(f, "\n{question}")?;
        }
        Ok(())
    }
}
