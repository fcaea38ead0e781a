// SPDX-License-Identifier: Apache-2.0 AND BSD-3-Clause
// The guest's side: the request's bytes, the response's and the config's, and a planner that proposes the next plug.
#![tactic(auto)]

ghost use Rattle.std.specs.Prelude.{◌≡◌, ◌-◌, ◌<◌, ◌≤◌, min, ◌*◌, ◌^◌, ltb, length};
ghost use Rattle.refusal.specs.Refusal.{code};
ghost use Rattle.units.specs.Numbers.{blocks_in, GiB};
ghost use Rattle.bitmap.specs.Blocks.{blocks, next_set};
ghost use Rattle.driver.specs.Text.{Wrote, ReadsResponse, ReadsConfig};
ghost use Rattle.driver.specs.Plan.{border_after, stop_at, stop_of, room_of, plan_of};

use bitmap::{next_clear, next_set};
use little_endian::{read_u16, read_u64, write_u64};
use record::config_shaped;
use refusal::Refusal;
use units::{GuestAddr, MemTool};
use wire::{VirtioMemConfig, VirtioMemReq, VirtioMemResp};

// A plug to ask for: its address and its blocks.
#[derive(Clone, Copy)]
pub struct Plug {
    pub addr: GuestAddr,
    pub nb_blocks: u16,
}

// Writes the 24 bytes of a request, or gives 16 and writes nothing. The type and the blocks are written as numbers of
// eight bytes, whose upper six are the padding.
pub fn write_request(bytes: &mut [u8], req: VirtioMemReq) -> Result<(), Refusal>
    ensures { Wrote req bytes.old bytes.new (code result) }
{
    if bytes.len() < 24 {
        return Err(Refusal::BadBytes);
    }
    write_u64(bytes, 0, u64::from(req.req_type));
    write_u64(bytes, 8, req.addr.0);
    write_u64(bytes, 16, u64::from(req.nb_blocks));
    Ok(())
}

// Reads the 10 bytes of a response, or gives 16. The type as a number of eight passes 3 also where the padding is not
// zero.
pub fn read_response(bytes: &[u8]) -> Result<VirtioMemResp, Refusal>
    ensures { ReadsResponse bytes.now result }
{
    if bytes.len() < 10 {
        return Err(Refusal::BadBytes);
    }
    let padded = read_u64(bytes, 0);
    if 3 < padded {
        return Err(Refusal::BadBytes);
    }
    let state = read_u16(bytes, 8);
    if 2 < state {
        return Err(Refusal::BadBytes);
    }
    Ok(VirtioMemResp {
        resp_type: padded as u16,
        state,
    })
}

// Reads the 56 bytes of a config, or gives 16. The node as a number of eight passes 65,535 where the padding is not
// zero.
pub fn read_config(bytes: &[u8]) -> Result<VirtioMemConfig, Refusal>
    ensures { ReadsConfig bytes.now result }
{
    if bytes.len() < 56 {
        return Err(Refusal::BadBytes);
    }
    let padded = read_u64(bytes, 8);
    if 65535 < padded {
        return Err(Refusal::BadBytes);
    }
    Ok(VirtioMemConfig {
        block_size: read_u64(bytes, 0),
        node_id: padded as u16,
        addr: GuestAddr(read_u64(bytes, 16)),
        region_size: read_u64(bytes, 24),
        usable_region_size: read_u64(bytes, 32),
        plugged_size: read_u64(bytes, 40),
        requested_size: read_u64(bytes, 48),
    })
}

// Whether a bitmap has fewer blocks than these.
fn too_short(bitmap: &[u8], needed: u64) -> bool
    ensures { result ≡ ltb (length (blocks bitmap.now)) needed }
{
    (bitmap.len() as u64) < needed.div_ceil(8)
}

// The block behind the 2 GiB border of offsets that comes next.
fn border_after(block_size: u64, first: u64) -> u64
    requires { (0 < block_size) × (block_size ≤ 2 * GiB) × (first < 2 ^ 63) }
    ensures { result ≡ border_after block_size first }
{
    let per = MemTool::MAP_REGION_SIZE / block_size;
    (first / per + 1) * per
}

// Where the free blocks from `first` on stop: at a plugged one, or at the limit.
fn stop_at(bitmap: &[u8], first: u64, limit: u64) -> u64
    ensures { result ≡ stop_at (next_set (blocks bitmap.now) first limit) limit }
{
    next_set(bitmap, first as usize, limit as usize).map_or(limit, |next| next as u64)
}

// How many blocks the requested size has room for.
fn room_of(block_size: u64, plugged: u64, requested: u64) -> u64
    requires { 0 < block_size }
    ensures { result ≡ room_of block_size plugged requested }
{
    requested.saturating_sub(plugged) / block_size
}

// How many blocks a plug from `first` on takes, of those that there is room for.
fn count_of(bitmap: &[u8], block_size: u64, usable: u64, first: u64, room: u64) -> u64
    requires block_size_nonzero { (0 < block_size) × (block_size ≤ 2 * GiB) }
    requires first_bound { (first < 2 ^ 63) × (first < blocks_in block_size usable) }
    ensures { result ≡ min (stop_of block_size usable (blocks bitmap.now) first - first) room }
{
    let border = border_after(block_size, first);
    let stop = stop_at(bitmap, first, (usable / block_size).min(border));
    (stop - first).min(room)
}

// Proposes the plug that starts at the lowest free block and takes all blocks up to the next plugged one, the 2 GiB
// border of offsets, the usable end or the spent requested size. 12: not the fields of a device's config; 11: the
// bitmap is too short; 17: no plug of one block is legal.
pub fn plan(config: VirtioMemConfig, bitmap: &[u8]) -> Result<Plug, Refusal>
    ensures { result ≡ plan_of config (blocks bitmap.now) }
{
    if !config_shaped(config) {
        return Err(Refusal::NoShape);
    }
    let size = config.block_size;
    let usable = config.usable_region_size;
    if too_short(bitmap, config.region_size / size) {
        return Err(Refusal::TooShort);
    }
    let room = room_of(size, config.plugged_size, config.requested_size);
    if room == 0 {
        return Err(Refusal::NothingToPlug);
    }
    let lowest = next_clear(bitmap, 0, (usable / size) as usize).ok_or(Refusal::NothingToPlug)?;
    let first = lowest as u64;
    let count = count_of(bitmap, size, usable, first, room);
    Ok(Plug {
        addr: GuestAddr(config.addr.0 + first * size),
        nb_blocks: count as u16,
    })
}
