// Items in a fixed number of places.
use block_records::listed::Listed;
use std::array;

// Zeros after the items.
pub fn padded<T: Copy, const N: usize>(items: &[T], zero: T) -> [T; N] {
    array::from_fn(|place| items.get(place).copied().unwrap_or(zero))
}

pub fn listed<T: Copy, const N: usize>(items: &[T], zero: T) -> Listed<T, N> {
    Listed {
        count: items.len(),
        items: padded(items, zero),
    }
}
