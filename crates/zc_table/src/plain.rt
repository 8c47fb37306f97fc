// A table that keeps a number for each place.
ghost use Rattle.std.specs.Prelude.{◌≡◌, ℕ, ◌^◌, ◌<◌, length};
ghost use Rattle.zc_table.specs.Counts.{region_at, regions_of, used_of, saved_of};

mod calls;

/// A table with a number for each place and for each region. Each of its calls takes the same time, whatever it holds.
#[derive(Debug, Drop)]
pub struct PlainTable {
    counts: Vec<u32>,
    /// The sum of each region.
    regions: Vec<u32>,
    used: u64,
    saved: u64,
    ghost few: { length counts.items < 2 ^ 32 },
    ghost sums: { regions.items ≡ regions_of counts.items },
    ghost entries: { used ≡ used_of counts.items },
    ghost references: { saved ≡ saved_of counts.items },
    ghost fit: { (region : ℕ) → region_at counts.items region < 2 ^ 32 },
}
