//! Names of 15 bytes, in an order that looks like none.
use std::alloc::{AllocError, Global};

/// A name.
pub type Name = [u8; 15];

/// The bits of a number, mixed so that two numbers have different ones (splitmix64).
fn mixed(number: u64) -> u64 {
    let bits = number.wrapping_add(1).wrapping_mul(0x9e37_79b9_7f4a_7c15);
    let bits = (bits ^ (bits >> 30)).wrapping_mul(0xbf58_476d_1ce4_e5b9);
    let bits = (bits ^ (bits >> 27)).wrapping_mul(0x94d0_49bb_1331_11eb);
    bits ^ (bits >> 31)
}

/// The name of a number: 15 letters from a to p.
fn name_of(number: u64) -> Name {
    let mut name = [0u8; 15];
    let mut bits = mixed(number);
    for at in 0..15 {
        name[at] = b'a' + (bits & 15) as u8;
        bits >>= 4;
    }
    name
}

/// The names of `count` numbers from `first` on. Where `jumps` is odd and the count a power of two, these are all of
/// them, in the order in which so many are left out each time.
pub fn names(alloc: Global, first: u64, count: u64, jumps: u64) -> Result<Vec<Name>, AllocError> {
    let mut names = Vec::new(alloc);
    for at in 0..count {
        let number = at.wrapping_mul(jumps) & count.wrapping_sub(1);
        names.push(name_of(first.wrapping_add(number)))?;
    }
    Ok(names)
}
