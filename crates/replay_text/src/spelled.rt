// How the values of the language are spelled.
use crate::scanner::Scanner;
use crate::unexpected::{Expected, Unexpected};
use block_records::block_id::{BlockId, BlockIdShort, ShardIdent, zero_id, zero_key};
use block_records::entry::CandidateStatus;
use block_records::listed::Listed;
use block_records::range::AppliedRange;
use block_records::top_block::{TopBlock, zero_top};
use std::fmt;

// A value that is read from a line, and printed as it is read.
pub trait Spelled: Copy {
    fn read(scanner: &mut Scanner<'_>) -> Result<Self, Unexpected>;

    // Written for each type: options and lists are spelled too and have no Display, so none can be asked for here.
    fn print<W: fmt::Write>(&self, f: &mut fmt::Formatter<W>) -> fmt::Result;
}

// A value as it is spelled.
#[derive(Clone, Copy)]
pub struct Shown<'a, T>(pub &'a T);

impl<T: Spelled> fmt::Display for Shown<'_, T> {
    fn fmt<W: fmt::Write>(&self, f: &mut fmt::Formatter<W>) -> fmt::Result {
        self.0.print(f)
    }
}

impl Scanner<'_> {
    // The value after a text of the form.
    pub fn field<T: Spelled>(&mut self, text: &'static str) -> Result<T, Unexpected> {
        self.text(text)?;
        T::read(self)
    }
}

// ===== numbers =====

impl Spelled for u32 {
    fn read(scanner: &mut Scanner<'_>) -> Result<Self, Unexpected> {
        scanner.number(0, u32::MAX, Expected::Number32)
    }

    fn print<W: fmt::Write>(&self, f: &mut fmt::Formatter<W>) -> fmt::Result {
        write!(f, "{self}")
    }
}

impl Spelled for u64 {
    fn read(scanner: &mut Scanner<'_>) -> Result<Self, Unexpected> {
        scanner.number(0, u64::MAX, Expected::Number64)
    }

    fn print<W: fmt::Write>(&self, f: &mut fmt::Formatter<W>) -> fmt::Result {
        write!(f, "{self}")
    }
}

// A count, which may be past its list's places.
impl Spelled for usize {
    fn read(scanner: &mut Scanner<'_>) -> Result<Self, Unexpected> {
        scanner.number(0, usize::MAX, Expected::Number64)
    }

    fn print<W: fmt::Write>(&self, f: &mut fmt::Formatter<W>) -> fmt::Result {
        write!(f, "{self}")
    }
}

// A flag.
impl Spelled for bool {
    fn read(scanner: &mut Scanner<'_>) -> Result<Self, Unexpected> {
        let flag: u8 = scanner.number(0, 1, Expected::Flag)?;
        Ok(flag == 1)
    }

    fn print<W: fmt::Write>(&self, f: &mut fmt::Formatter<W>) -> fmt::Result {
        let flag = *self as u8;
        write!(f, "{flag}")
    }
}

// ===== ids =====

impl Spelled for ShardIdent {
    fn read(scanner: &mut Scanner<'_>) -> Result<Self, Unexpected> {
        let workchain = scanner.signed(Expected::Workchain)?;
        scanner.byte(b':', Expected::Shard)?;
        let prefix = u64::from_be_bytes(scanner.hex(Expected::Shard)?);
        Ok(ShardIdent { workchain, prefix })
    }

    fn print<W: fmt::Write>(&self, f: &mut fmt::Formatter<W>) -> fmt::Result {
        write!(f, "{self}")
    }
}

impl Spelled for BlockIdShort {
    fn read(scanner: &mut Scanner<'_>) -> Result<Self, Unexpected> {
        let shard = Spelled::read(scanner)?;
        scanner.byte(b':', Expected::Key)?;
        let seqno = Spelled::read(scanner)?;
        Ok(BlockIdShort { shard, seqno })
    }

    fn print<W: fmt::Write>(&self, f: &mut fmt::Formatter<W>) -> fmt::Result {
        write!(f, "{self}")
    }
}

impl Spelled for BlockId {
    fn read(scanner: &mut Scanner<'_>) -> Result<Self, Unexpected> {
        let BlockIdShort { shard, seqno } = Spelled::read(scanner)?;
        scanner.byte(b':', Expected::Id)?;
        let root_hash = scanner.hex(Expected::Id)?;
        scanner.byte(b':', Expected::Id)?;
        let file_hash = scanner.hex(Expected::Id)?;
        Ok(BlockId {
            shard,
            seqno,
            root_hash,
            file_hash,
        })
    }

    fn print<W: fmt::Write>(&self, f: &mut fmt::Formatter<W>) -> fmt::Result {
        write!(f, "{self}")
    }
}

// ===== parts of records =====

// A top item.
impl Spelled for TopBlock {
    fn read(scanner: &mut Scanner<'_>) -> Result<Self, Unexpected> {
        let ref_by_mc_seqno = Spelled::read(scanner)?;
        scanner.byte(b'/', Expected::Top)?;
        let block_id = Spelled::read(scanner)?;
        scanner.byte(b'/', Expected::Top)?;
        let updated = Spelled::read(scanner)?;
        Ok(TopBlock {
            ref_by_mc_seqno,
            block_id,
            updated,
        })
    }

    fn print<W: fmt::Write>(&self, f: &mut fmt::Formatter<W>) -> fmt::Result {
        let reference = self.ref_by_mc_seqno;
        let id = self.block_id;
        let updated = self.updated as u8;
        write!(f, "{reference}/{id}/{updated}")
    }
}

impl Spelled for AppliedRange {
    fn read(scanner: &mut Scanner<'_>) -> Result<Self, Unexpected> {
        let start = Spelled::read(scanner)?;
        scanner.byte(b'.', Expected::Range)?;
        scanner.byte(b'.', Expected::Range)?;
        let end = Spelled::read(scanner)?;
        Ok(AppliedRange { start, end })
    }

    fn print<W: fmt::Write>(&self, f: &mut fmt::Formatter<W>) -> fmt::Result {
        let start = self.start;
        let end = self.end;
        write!(f, "{start}..{end}")
    }
}

fn status_name(status: CandidateStatus) -> &'static str {
    match status {
        CandidateStatus::Collated => "Collated",
        CandidateStatus::Validated => "Validated",
        CandidateStatus::ValidationSkipped => "ValidationSkipped",
        CandidateStatus::Synced => "Synced",
    }
}

// A space follows it in every form.
impl Spelled for CandidateStatus {
    fn read(scanner: &mut Scanner<'_>) -> Result<Self, Unexpected> {
        for status in [
            CandidateStatus::Collated,
            CandidateStatus::Validated,
            CandidateStatus::ValidationSkipped,
            CandidateStatus::Synced,
        ] {
            if scanner.takes_word(status_name(status)) {
                return Ok(status);
            }
        }
        Err(scanner.unexpected(Expected::Status))
    }

    fn print<W: fmt::Write>(&self, f: &mut fmt::Formatter<W>) -> fmt::Result {
        f.write_str(status_name(*self))
    }
}

// ===== what may be absent, and lists =====

// `-` where there is none.
impl<T: Spelled> Spelled for Option<T> {
    fn read(scanner: &mut Scanner<'_>) -> Result<Self, Unexpected> {
        if scanner.takes_absent() {
            return Ok(None);
        }
        let value = T::read(scanner)?;
        Ok(Some(value))
    }

    fn print<W: fmt::Write>(&self, f: &mut fmt::Formatter<W>) -> fmt::Result {
        match self {
            None => f.write_str("-"),
            Some(value) => value.print(f),
        }
    }
}

// An item of a list, with what stands in places that are not listed.
pub trait Item: Spelled {
    fn zero() -> Self;
}

impl Item for BlockId {
    fn zero() -> Self {
        zero_id()
    }
}

impl Item for BlockIdShort {
    fn zero() -> Self {
        zero_key()
    }
}

impl Item for TopBlock {
    fn zero() -> Self {
        zero_top()
    }
}

// Items with commas between them. Those past the places are only counted.
pub fn read_items<T: Item, const N: usize>(
    scanner: &mut Scanner<'_>,
) -> Result<Listed<T, N>, Unexpected> {
    let mut listed = Listed::empty(T::zero());
    for _ in 0..u64::MAX {
        let item = T::read(scanner)?;
        if listed.count < N {
            listed.push(item);
        } else {
            listed.count = listed.count.saturating_add(1);
        }
        if !scanner.takes_byte(b',') {
            break;
        }
    }
    Ok(listed)
}

pub fn print_items<T: Spelled, W: fmt::Write>(
    items: &[T],
    f: &mut fmt::Formatter<W>,
) -> fmt::Result {
    for (place, item) in items.iter().enumerate() {
        if 0 < place {
            f.write_str(",")?;
        }
        item.print(f)?;
    }
    Ok(())
}

// `-` for none.
impl<T: Item, const N: usize> Spelled for Listed<T, N> {
    fn read(scanner: &mut Scanner<'_>) -> Result<Self, Unexpected> {
        if scanner.takes_absent() {
            return Ok(Listed::empty(T::zero()));
        }
        read_items(scanner)
    }

    fn print<W: fmt::Write>(&self, f: &mut fmt::Formatter<W>) -> fmt::Result {
        if self.count == 0 {
            return f.write_str("-");
        }
        print_items(self.listed(), f)
    }
}
