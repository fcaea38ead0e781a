// SPDX-License-Identifier: Apache-2.0 AND BSD-3-Clause
// What a request may do to a range of blocks: whether it lies inside, which state it is in, and where the host has it.
// Overflow is checked before addresses are added.
#![tactic(auto)]

ghost use Rattle.std.specs.Prelude.{◌≡◌, ◌-◌, ◌<◌, min};
ghost use Rattle.units.specs.Numbers.{blocks_in};
ghost use Rattle.bitmap.specs.Blocks.{blocks, range};
ghost use Rattle.rows.specs.Rows.{rows_of};
ghost use Rattle.change.specs.Change.{inside_of, range_of, host_sum, host_in, host_of, change_of, state_in, state_of};
ghost use Rattle.change.specs.Why.{why, why_number};

use bitmap::all_in_state;
use rows::mapping_of;
use units::{GuestAddr, HostAddr, MemTool, RegionOffset, is_multiple, sum_within};

// Why a response is an ERROR (R10.17): which of the tests (b), (c) and (d) failed first, or that the host could not
// discard.
#[derive(Clone, Copy, Debug, PartialEq, Eq)]
pub enum Reason {
    // Test (b), part by part (R10.4).
    Alignment,
    ZeroBlocks,
    Overflow,
    BelowStart,
    PastUsable,
    EndPastUsable,
    // Test (c) (R10.5).
    WrongState,
    // Test (d), part by part (R10.6).
    CrossesBorder,
    Unmapped,
    SumPasses,
    // The host's answer to a discard (R10.10, R10.13).
    FailedDiscard,
}

impl Reason {
    // The reason's number, 1 to 11.
    pub fn number(self) -> u64
        ensures { result ≡ why self }
    {
        match self {
            Reason::Alignment => 1,
            Reason::ZeroBlocks => 2,
            Reason::Overflow => 3,
            Reason::BelowStart => 4,
            Reason::PastUsable => 5,
            Reason::EndPastUsable => 6,
            Reason::WrongState => 7,
            Reason::CrossesBorder => 8,
            Reason::Unmapped => 9,
            Reason::SumPasses => 10,
            Reason::FailedDiscard => 11,
        }
    }
}

// The number of a reason, and 0 where there is none.
pub fn why_number(why: Option<Reason>) -> u64
    ensures { result ≡ why_number why }
{
    match why {
        Some(reason) => reason.number(),
        None => 0,
    }
}

// Where requests may lie: `size` bytes from the start on, in blocks of this size. The size is the usable one, or the
// region's for a state.
#[derive(Clone, Copy)]
pub struct Area {
    pub start: GuestAddr,
    pub size: u64,
    pub block_size: u32,
}

// The blocks that a request names: so many from an address on.
#[derive(Clone, Copy)]
pub struct Blocks {
    pub addr: GuestAddr,
    pub nb_blocks: u16,
}

// A change that passed the tests (b), (c) and (d): its first block, its offset and its host address.
#[derive(Clone, Copy)]
pub struct Change {
    pub first: u64,
    pub offset: RegionOffset,
    pub host: HostAddr,
}

// Whether a range lies inside start to start + usable. From `start` on, offsets are compared: they need no sum.
fn inside_of(
    start: GuestAddr,
    usable: u64,
    addr: GuestAddr,
    size: u64,
) -> Result<RegionOffset, Reason>
    ensures { result ≡ inside_of start.0 usable addr.0 size }
{
    if addr.0 < start.0 {
        return Err(Reason::BelowStart);
    }
    let offset = addr.offset_from(start);
    if usable <= offset.0 {
        return Err(Reason::PastUsable);
    }
    if usable - offset.0 < size {
        return Err(Reason::EndPastUsable);
    }
    Ok(offset)
}

// A range at an offset from what is mapped at `host`.
fn host_sum(host: HostAddr, offset: RegionOffset, size: u64) -> Result<HostAddr, Reason>
    ensures { result ≡ host_sum host.0 offset.0 size }
{
    if !sum_within(host.0, offset.0, u64::MAX) {
        return Err(Reason::SumPasses);
    }
    let at = host.0 + offset.0;
    if !sum_within(at, size, u64::MAX) {
        return Err(Reason::SumPasses);
    }
    Ok(HostAddr(at))
}

// A range at an offset from where a row is mapped.
fn host_in(mapping: Option<HostAddr>, offset: RegionOffset, size: u64) -> Result<HostAddr, Reason>
    ensures { result ≡ host_in mapping offset.0 size }
{
    let Some(host) = mapping else {
        return Err(Reason::Unmapped);
    };
    host_sum(host, offset, size)
}

// Test (d), part by part.
pub fn host_of(
    several: bool,
    table: &[u64],
    offset: RegionOffset,
    size: u64,
) -> Result<HostAddr, Reason>
    ensures { result ≡ host_of several (rows_of table.now) offset.0 size }
{
    if !several {
        return host_in(mapping_of(table, 0), offset, size);
    }
    let within = offset.in_map_region();
    if !sum_within(within.0, size, MemTool::MAP_REGION_SIZE) {
        return Err(Reason::CrossesBorder);
    }
    host_in(mapping_of(table, offset.map_region()), within, size)
}

// The state of blocks: plugged 0, unplugged 1, mixed 2 (R7.4).
fn state_in(bitmap: &[u8], first: usize, count: usize) -> u16
    ensures { result ≡ state_in (range (blocks bitmap.now) first count) }
{
    if all_in_state(bitmap, first, count, true) {
        return 0;
    }
    if all_in_state(bitmap, first, count, false) {
        return 1;
    }
    2
}

// How many of a range's blocks the region has. Where it has them all, it is not divided.
fn blocks_there(region: u64, block_size: u32, offset: RegionOffset, nb_blocks: u16) -> u64
    requires { 0 < block_size }
    ensures { result ≡ min nb_blocks (blocks_in block_size region - blocks_in block_size offset.0) }
{
    let size = MemTool::bytes_of(nb_blocks, block_size);
    if sum_within(offset.0, size, region) {
        return nb_blocks as u64;
    }
    let end = MemTool::blocks_in(region, block_size as u64);
    let first = MemTool::blocks_in(offset.0, block_size as u64);
    (nb_blocks as u64).min(end.saturating_sub(first))
}

impl Area {
    // Test (b), part by part.
    pub fn range_of(self, asked: Blocks) -> Result<RegionOffset, Reason>
        ensures { result ≡ range_of self.block_size self.start.0 self.size asked.addr.0 asked.nb_blocks }
    {
        let addr = asked.addr;
        let nb_blocks = asked.nb_blocks;
        let block_size = self.block_size;
        let aligned = is_multiple(addr.0, block_size as u64);
        if !aligned {
            return Err(Reason::Alignment);
        }
        let no_blocks = nb_blocks == 0;
        if no_blocks {
            return Err(Reason::ZeroBlocks);
        }
        let size = MemTool::bytes_of(nb_blocks, block_size);
        if !sum_within(addr.0, size, u64::MAX) {
            return Err(Reason::Overflow);
        }
        inside_of(self.start, self.size, addr, size)
    }

    // The tests (b), (c) and (d) of a plug, or of an unplug (R10.2).
    pub fn change_of(
        self,
        several: bool,
        asked: Blocks,
        plug: bool,
        bitmap: &[u8],
        table: &[u64],
    ) -> Result<Change, Reason>
        ensures { result ≡ change_of self.block_size self.start.0 self.size several asked.addr.0 asked.nb_blocks plug
            (blocks bitmap.now) (rows_of table.now) }
    {
        let nb_blocks = asked.nb_blocks;
        let block_size = self.block_size;
        let offset = self.range_of(asked)?;
        let first = MemTool::blocks_in(offset.0, block_size as u64);
        if !all_in_state(bitmap, first as usize, nb_blocks as usize, !plug) {
            return Err(Reason::WrongState);
        }
        let size = MemTool::bytes_of(nb_blocks, block_size);
        let host = host_of(several, table, offset, size)?;
        Ok(Change {
            first: first,
            offset: offset,
            host: host,
        })
    }

    // The state of a range, over such blocks as the region has (R10.16).
    pub fn state_of(self, asked: Blocks, bitmap: &[u8]) -> u16
        ensures { result ≡ state_of self.block_size self.start.0 self.size asked.addr.0 asked.nb_blocks
            (blocks bitmap.now) }
    {
        let start = self.start;
        let region = self.size;
        let block_size = self.block_size;
        let addr = asked.addr;
        let nb_blocks = asked.nb_blocks;
        if addr.0 < start.0 {
            return 0;
        }
        if block_size == 0 {
            return 0;
        }
        let offset = addr.offset_from(start);
        let count = blocks_there(region, block_size, offset, nb_blocks);
        let first = MemTool::blocks_in(offset.0, block_size as u64);
        state_in(bitmap, first as usize, count as usize)
    }
}
