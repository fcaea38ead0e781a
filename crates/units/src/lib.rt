// SPDX-License-Identifier: Apache-2.0 AND BSD-3-Clause
// The numbers of the device: three kinds of address, the sizes, the alignment, rounding, and tests for overflow.
#![tactic(auto)]

ghost use Rattle.std.specs.Prelude.{◌≡◌, ◌+◌, ◌-◌, ◌*◌, ◌/◌, ◌%◌, min, leb, eqb};
ghost use Rattle.units.specs.Numbers.{saturated, bytes_of, blocks_in, map_region, map_regions};
ghost use Rattle.units.specs.Numbers.{alignment_of, next_multiple};

// An address as the guest sees it.
#[derive(Clone, Copy)]
pub struct GuestAddr(pub u64);

// How far a byte lies past the start of the region.
#[derive(Clone, Copy)]
pub struct RegionOffset(pub u64);

// An address in the host's memory.
#[derive(Clone, Copy)]
pub struct HostAddr(pub u64);

// Boot memory from which on the guest uses large memory blocks.
const BOOT_MEM_SIZE_FOR_LARGE_BLOCK: u64 = 64 * MemTool::GIB;

// The sizes stay with `MemTool`, as in mem.rs.
#[derive(Clone, Copy)]
pub struct MemTool {}

impl MemTool {
    pub const BLOCK_SHIFT: u64 = 22;

    pub const BLOCK_SIZE: u64 = 1 << MemTool::BLOCK_SHIFT;

    pub const MAP_REGION_SHIFT: u64 = 31;

    pub const MAP_REGION_SIZE: u64 = 1 << MemTool::MAP_REGION_SHIFT;

    pub const MIB: u64 = 1 << 20;

    pub const GIB: u64 = 1 << 30;

    pub const MIN_ALIGNMENT: u64 = 128 * MemTool::MIB;

    // The bytes of a request's blocks: a count of 16 bits and a block size of 32 fit 64.
    pub fn bytes_of(nb_blocks: u16, block_size: u32) -> u64
        ensures { result ≡ bytes_of block_size nb_blocks }
    {
        u64::from(nb_blocks) * u64::from(block_size)
    }

    // How many whole blocks a size holds: none of 0 bytes.
    pub fn blocks_in(size: u64, block_size: u64) -> u64
        ensures { result ≡ blocks_in block_size size }
    {
        size.checked_div(block_size).unwrap_or(0)
    }
}

impl GuestAddr {
    // How far an address lies past `start`: 0 below it.
    pub fn offset_from(self, start: GuestAddr) -> RegionOffset
        ensures { result.0 ≡ self.0 - start.0 }
    {
        RegionOffset(self.0.saturating_sub(start.0))
    }
}

impl RegionOffset {
    // Where a map region starts, saturating at 2^64 - 1.
    pub fn of_map_region(row: u64) -> RegionOffset
        ensures { result.0 ≡ saturated (row * map_region) }
    {
        RegionOffset(row.saturating_mul(MemTool::MAP_REGION_SIZE))
    }

    // The guest's address of an offset, saturating at 2^64 - 1.
    pub fn guest_from(self, start: GuestAddr) -> GuestAddr
        ensures { result.0 ≡ saturated (start.0 + self.0) }
    {
        GuestAddr(start.0.saturating_add(self.0))
    }

    // The host's address of an offset from what is mapped at `host`, saturating at 2^64 - 1.
    pub fn host_from(self, host: HostAddr) -> HostAddr
        ensures { result.0 ≡ saturated (host.0 + self.0) }
    {
        HostAddr(host.0.saturating_add(self.0))
    }

    // The map region in which an offset lies.
    pub fn map_region(self) -> u64
        ensures { result ≡ self.0 / map_region }
    {
        self.0 / MemTool::MAP_REGION_SIZE
    }

    // Where in its map region an offset lies.
    pub fn in_map_region(self) -> RegionOffset
        ensures { result.0 ≡ self.0 % map_region }
    {
        RegionOffset(self.0 % MemTool::MAP_REGION_SIZE)
    }
}

// Whether n is a multiple of `of`. Only 0 is one of 0.
pub fn is_multiple(n: u64, of: u64) -> bool
    ensures { result ≡ eqb (n % of) 0 }
{
    n.is_multiple_of(of)
}

// Whether a + b is at most `limit`, as numbers without end: no sum is made.
pub fn sum_within(a: u64, b: u64, limit: u64) -> bool
    ensures { result ≡ leb (a + b) limit }
{
    if limit < b {
        return false;
    }
    a <= limit - b
}

// Whether a * b is at most `limit`, as numbers without end: no product is made.
pub fn product_within(a: u64, b: u64, limit: u64) -> bool
    ensures { result ≡ leb (a * b) limit }
{
    if b == 0 {
        return true;
    }
    a <= limit / b
}

// The guest's memory block size, by its boot memory (R4.2).
pub fn alignment_of(boot: u64) -> u64
    ensures { result ≡ alignment_of boot }
{
    let small = boot < BOOT_MEM_SIZE_FOR_LARGE_BLOCK;
    if small {
        return MemTool::MIN_ALIGNMENT;
    }
    1 << boot.trailing_zeros().clamp(27, 31)
}

// A number rounded up to a multiple of another, saturating at 2^64 - 1.
pub fn next_multiple_of(n: u64, to: u64) -> u64
    ensures { result ≡ saturated (next_multiple n to) }
{
    if to == 0 {
        return 0;
    }
    n.checked_next_multiple_of(to).unwrap_or(u64::MAX)
}

// How many rows of the map table a region takes (R4.5).
#[tactic(auto, unfolding(crate::specs::Numbers::map_regions))]
pub fn map_regions(region_size: u64, several: bool) -> u64
    ensures { result ≡ map_regions region_size several }
{
    if several {
        region_size.div_ceil(MemTool::MAP_REGION_SIZE)
    } else {
        1
    }
}
