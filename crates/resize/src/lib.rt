// SPDX-License-Identifier: Apache-2.0 AND BSD-3-Clause
// The usable size, and the one creation of map regions that its growth may ask for.
#![tactic(auto)]

ghost use Rattle.std.specs.Prelude.{◌≡◌, true, ◌+◌, ◌-◌, ◌*◌, ◌≤◌, min};
ghost use Rattle.rows.specs.Rows.{rows_of};
ghost use Rattle.units.specs.Numbers.{map_regions};
ghost use Rattle.resize.specs.Resize.{new_size, grown, end_row, creation_size, growth_of};

use rows::first_unmapped;
use units::{MemTool, map_regions};

// The one creation that the growth of the usable size may ask for: its first and its last row, and its bytes.
#[derive(Clone, Copy)]
pub struct Creation {
    pub first: u64,
    pub last: u64,
    pub size: u64,
}

// The smaller of the region and requested + 2 x alignment.
fn extent(region: u64, requested: u64, alignment: u64) -> u64
    ensures { result ≡ min region (requested + 2 * alignment) }
{
    if region <= requested {
        return region;
    }
    if alignment <= (region - requested) / 2 {
        requested + 2 * alignment
    } else {
        region
    }
}

// The usable size that a requested size is worth (R6.1).
pub fn new_size(region: u64, requested: u64, alignment: u64, block_size: u64) -> u64
    ensures { result ≡ new_size block_size region requested alignment }
{
    let nothing = requested == 0;
    if nothing {
        return 0;
    }
    MemTool::blocks_in(extent(region, requested, alignment), block_size) * block_size
}

// The usable size after a resize: it never shrinks (R6.2).
pub fn grown_size(usable: u64, new: u64) -> u64
    ensures { result ≡ grown usable new }
{
    if usable < new { new } else { usable }
}

// The row in which a size ends, at most the last row of several regions (R6.4).
fn end_row(region: u64, size: u64) -> u64
    ensures { result ≡ end_row region true size }
{
    let count = map_regions(region, true);
    if count == 0 {
        return 0;
    }
    (size / MemTool::MAP_REGION_SIZE).min(count - 1)
}

// The bytes of the creation that covers rows i to last of several regions (R6.6).
#[tactic(auto, unfolding(units::specs::Numbers::map_regions))]
fn creation_size(region: u64, i: u64, last: u64) -> u64
    requires { (i ≤ last) × (last ≤ map_regions region true - 1) }
    ensures { result ≡ creation_size region true i last }
{
    let before = (last - i) * MemTool::MAP_REGION_SIZE;
    if last + 1 == map_regions(region, true) {
        before + (region - last * MemTool::MAP_REGION_SIZE)
    } else {
        before + MemTool::MAP_REGION_SIZE
    }
}

// What must be created before the usable size may grow to `new` (R6.5).
pub fn growth_of(
    region: u64,
    several: bool,
    usable: u64,
    new: u64,
    table: &[u64],
) -> Option<Creation>
    ensures { result ≡ growth_of region several usable new (rows_of table.now) }
{
    if !several {
        return None;
    }
    if new <= usable {
        return None;
    }
    let last = end_row(region, new);
    let Some(i) = first_unmapped(table, end_row(region, usable), last) else {
        return None;
    };
    Some(Creation {
        first: i,
        last: last,
        size: creation_size(region, i, last),
    })
}
