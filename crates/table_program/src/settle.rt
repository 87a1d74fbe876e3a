//! The level at which a table of so many texts settles.
ghost use Rattle.std.specs.Prelude.{◌≡◌, ◌≤◌, ◌<◌, ◌^◌};
ghost use Rattle.intern_log.specs.Buckets as buckets;

/// The least level from `min_level` on whose row of 2^level buckets holds `live` texts at `load` a
/// bucket, or `max_level` where none below it does.
pub fn settle_level(load: u16, live: u32, min_level: u8, max_level: u8) -> u8
    requires ordered { min_level ≤ max_level }
    requires bounded { max_level ≤ 20 }
    ensures level { result ≡ buckets.settle_level load min_level max_level live }
    ensures within { result ≤ max_level }
{
    for level in min_level..max_level {
        if u64::from(live) <= (1u64 << level) * u64::from(load) {
            return level;
        }
    }
    max_level
}

#[cfg(test)]
mod tests {
    use super::*;

    #[test]
    fn levels_of_some_loads(rt: HostRuntime) {
        assert_eq!(rt; settle_level(8, 0, 3, 16), 3);
        assert_eq!(rt; settle_level(8, 64, 3, 16), 3);
        assert_eq!(rt; settle_level(8, 65, 3, 16), 4);
        assert_eq!(rt; settle_level(2, 16, 3, 16), 3);
        assert_eq!(rt; settle_level(2, 17, 3, 16), 4);
        assert_eq!(rt; settle_level(2, 1_000_000, 3, 16), 16);
        assert_eq!(rt; settle_level(2, 5, 7, 7), 7);
    }
}
