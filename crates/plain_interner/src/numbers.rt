//! The numbers of a report, from the live texts and their entries in any order.
ghost use Rattle.std.specs.Prelude.{◌≡◌, ℕ, ◌^◌, ◌<◌, ◌≤◌, ◌+◌, max, fold, length, slice_index_or, sum_by};
ghost use Rattle.intern_log.specs.Buckets.{bucket_of, longest_bucket, in_bucket};
ghost use Rattle.intern_log.specs.EntryCounts as counts;
ghost use Rattle.plain_interner.specs.Longest.{IsLongestOf};

use crate::name::Name;
use crate::slot_entry::SlotEntry;
use std::alloc::Global;
use text_words::hash31;

/// How many buckets are counted at a time where there is no memory to count all at once.
const PART: usize = 4096;

/// How many holds the entries count together.
pub(crate) fn references(entries: &[SlotEntry]) -> u64
    requires { length entries.now < 2 ^ 32 }
    ensures { result ≡ sum_by counts.references_to entries.now }
{
    entries.iter().map(|entry| entry.references()).sum()
}

/// The bucket of a text in a row of 2^level.
fn bucket(level: u8, text: &[u8]) -> u32
    requires { level ≤ 20 }
    ensures { result ≡ bucket_of 0 level text.now }
{
    hash31(text) % 2u32.pow(u32::from(level))
}

/// Counts the texts in each bucket from `from` on, as many buckets as there are counters.
fn count_texts(level: u8, names: &[Name], from: u32, counters: &mut [u32])
    requires level { level ≤ 20 }
    requires few { length names.now < 2 ^ 32 }
    ensures len { length counters.new ≡ length counters.old }
    ensures counted { (k : ℕ) → k < length counters.old → slice_index_or counters.new k 0 ≡ in_bucket 0 level names.now (from + k) }
{
    counters.fill(0);
    for name in names {
        let bucket = bucket(level, name.bytes());
        if from <= bucket {
            let at = (bucket - from) as usize;
            if at < counters.len() {
                counters[at] += 1;
            }
        }
    }
}

/// The greatest of the counters, or 0.
fn greatest(counters: &[u32]) -> u32
    ensures { result ≡ fold (λ most count. max most count) 0 counters.now }
{
    counters.iter().fold(0, |most, count| most.max(*count))
}

/// The greatest number of texts in one of the buckets from `from` on, as many as there are counters.
fn longest_among(level: u8, names: &[Name], from: u32, counters: &mut [u32]) -> u32
    requires level { level ≤ 20 }
    requires few { length names.now < 2 ^ 32 }
    ensures len { length counters.new ≡ length counters.old }
    ensures longest { IsLongestOf level names.now from (from + length counters.old) result }
{
    count_texts(level, names, from, counters);
    greatest(counters)
}

/// The greatest number of texts in one bucket, counted part by part, without memory.
fn longest_by_parts(level: u8, names: &[Name]) -> u32
    requires level { level ≤ 20 }
    requires few { length names.now < 2 ^ 32 }
    ensures { result ≡ longest_bucket 0 level names.now }
{
    let mut counters = [0; PART];
    let mut most = 0;
    for part in 0..2u32.pow(u32::from(level)).div_ceil(PART as u32) {
        most = most.max(longest_among(level, names, part * PART as u32, &mut counters));
    }
    most
}

/// The greatest number of texts in one bucket of a row of 2^level, or 0.
pub(crate) fn longest(alloc: Global, level: u8, names: &[Name]) -> u32
    requires level { level ≤ 20 }
    requires few { length names.now < 2 ^ 32 }
    ensures { result ≡ longest_bucket 0 level names.now }
{
    match Vec::from_elem(alloc, 0, 2usize.pow(u32::from(level))) {
        Ok(mut counters) => longest_among(level, names, 0, counters.as_mut_slice()),
        Err(_) => longest_by_parts(level, names),
    }
}

#[cfg(test)]
mod tests {
    use super::*;
    use std::test::Fail;

    #[test]
    fn parts_count_as_the_whole_does(rt: HostRuntime) -> Result<(), Fail> {
        let alloc = rt.alloc();
        let mut names = Vec::new(alloc);
        // by 13 bits `Aa` and `BB` are in bucket 2,112 of the first part, and `abc` in bucket 6,242 of the second
        names.push(Name::of(alloc, b"Aa")?)?;
        names.push(Name::of(alloc, b"BB")?)?;
        for _ in 0..3 {
            names.push(Name::of(alloc, b"abc")?)?;
        }
        let names = names.as_slice();
        assert_eq!(rt; names.len(), 5);
        if names.len() == 5 {
            assert_eq!(rt; longest_by_parts(13, names), 3);
            assert_eq!(rt; longest(alloc, 13, names), 3);
            assert_eq!(rt; longest_by_parts(0, names), 5);
        }
        Ok(())
    }
}
