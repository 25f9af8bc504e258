//! The lower of the two bounds on timestamps.
ghost use Rattle.std.specs.Prelude.{◌≡◌, pos, option_map};
ghost use Rattle.part_laws.specs.Bounded.{low_bound};

/// In POSIX seconds: a minute after the moment, or the header's timestamp where one is given and less. It may be more than 64
/// bits hold, where no timestamp is above it.
pub fn low_bound(timestamp: Option<u64>, moment: u64) -> u128
    ensures { pos result ≡ low_bound (option_map pos timestamp) moment }
{
    let minute = u128::from(moment) + 60;
    match timestamp {
        None => minute,
        Some(timestamp) => u128::from(timestamp).min(minute),
    }
}
