// SPDX-License-Identifier: Apache-2.0 AND BSD-3-Clause
// The device's record by value: what it holds, the host call that it waits for, and whether it has the shape (R3).
#![tactic(auto)]

ghost use Rattle.std.specs.Prelude.{◌≡◌, true, ◌+◌, ◌<◌, leb};
ghost use Rattle.units.specs.Numbers.{top};
ghost use Rattle.record.specs.Shape.{alignment_ok, region_ok, span_of, start_ok, several_ok, pending_ok};
ghost use Rattle.record.specs.Shape.{shaped_of, config_shaped_of, is_idle, features_of};
ghost use Rattle.record.specs.Tests.{blocks_ok, inside_ok, rest_ok};

use units::{
    GuestAddr, HostAddr, MemTool, RegionOffset, is_multiple, map_regions, product_within,
    sum_within,
};
use wire::VirtioMemConfig;

const VIRTIO_F_VERSION_1: u64 = 32;

const VIRTIO_MEM_F_ACPI_PXM: u64 = 0;

// The largest region: 1 TiB.
const MAX_REGION_SIZE: u64 = 1024 * MemTool::GIB;

const MIB_128: u64 = 128 * MemTool::MIB;

const MIB_256: u64 = 256 * MemTool::MIB;

const MIB_512: u64 = 512 * MemTool::MIB;

const GIB_1: u64 = MemTool::GIB;

const GIB_2: u64 = 2 * MemTool::GIB;

// The host call that the device waits for.
#[derive(Clone, Copy)]
pub enum Pending {
    Nothing,
    // One creation for the rows from first to last: in placing where the device is not placed yet, else in a size
    // change.
    Create {
        first: u64,
        last: u64,
    },
    // The unplug of `count` blocks from block `first` on, and where its response goes.
    Discard {
        first: u64,
        count: u64,
        status: GuestAddr,
    },
    // One block of an unplug-all, and where its response goes.
    DiscardOne {
        block: u64,
        status: GuestAddr,
    },
}

// What the host is asked.
#[derive(Clone, Copy)]
pub enum HostCall {
    Create {
        guest: GuestAddr,
        size: u64,
        slot: u64,
    },
    Discard {
        offset: RegionOffset,
        size: u64,
        host: HostAddr,
    },
}

// What the device keeps from call to call (R3.1).
#[derive(Clone, Copy)]
pub struct Device {
    pub config: VirtioMemConfig,
    pub alignment: u64,
    pub several: bool,
    pub avail_features: u64,
    pub placed: bool,
    pub pending: Pending,
}

// One of 128, 256, 512 MiB, 1 or 2 GiB (R3.4).
fn alignment_ok(alignment: u64) -> bool
    ensures { result ≡ alignment_ok alignment }
{
    matches!(alignment, MIB_128 | MIB_256 | MIB_512 | GIB_1 | GIB_2)
}

// A positive multiple of twice the alignment, at most 1 TiB.
fn region_ok(region: u64, alignment: u64) -> bool
    requires { alignment_ok alignment ≡ true }
    ensures { result ≡ region_ok region alignment }
{
    (0 < region) & ((region % (2 * alignment) == 0) & (region <= MAX_REGION_SIZE))
}

// Three sizes that are multiples of the block size.
fn blocks_ok(block_size: u64, requested: u64, usable: u64, plugged: u64) -> bool
    requires { 0 < block_size }
    ensures { result ≡ blocks_ok block_size requested usable plugged }
{
    (requested % block_size == 0) & ((usable % block_size == 0) & (plugged % block_size == 0))
}

// Three sizes that are at most the region.
fn inside_ok(requested: u64, usable: u64, plugged: u64, region: u64) -> bool
    ensures { result ≡ inside_ok requested usable plugged region }
{
    (requested <= region) & ((usable <= region) & (plugged <= region))
}

// Whether what lies from the start on ends at 2^64 - 1 or below.
fn span_within(start: u64, region: u64, several: bool) -> bool
    ensures { result ≡ leb (start + span_of region several) top }
{
    if !several {
        return sum_within(start, region, u64::MAX);
    }
    let rows = map_regions(region, several);
    if !product_within(rows, MemTool::MAP_REGION_SIZE, u64::MAX) {
        return false;
    }
    sum_within(start, rows * MemTool::MAP_REGION_SIZE, u64::MAX)
}

// Whether a region may start here (R1.4).
pub fn start_ok(start: GuestAddr, region: u64, several: bool, alignment: u64) -> bool
    ensures { result ≡ start_ok start.0 region several alignment }
{
    is_multiple(start.0, alignment) & span_within(start.0, region, several)
}

// Several regions only if the region exceeds 2 GiB (R3.7).
fn several_ok(several: bool, region: u64) -> bool
    ensures { result ≡ several_ok several region }
{
    !several | (MemTool::MAP_REGION_SIZE < region)
}

// The blocks and rows of a pending call lie inside the region, and an unplug is at most the plugged size (R3.8).
fn pending_ok(pending: Pending, block_size: u64, region: u64, several: bool, plugged: u64) -> bool
    requires { 0 < block_size }
    ensures { result ≡ pending_ok pending block_size region several plugged }
{
    match pending {
        Pending::Nothing => true,
        Pending::Create { first, last } => (first <= last) & (last < map_regions(region, several)),
        Pending::Discard { first, count, .. } => {
            sum_within(first, count, MemTool::blocks_in(region, block_size))
                & (count <= MemTool::blocks_in(plugged, block_size))
        }
        Pending::DiscardOne { block, .. } => block < MemTool::blocks_in(region, block_size),
    }
}

// The last parts of the shape: where the regions end, that several are large enough, and the pending call.
fn rest_ok(
    block_size: u64,
    start: u64,
    region: u64,
    several: bool,
    pending: Pending,
    plugged: u64,
) -> bool
    requires { 0 < block_size }
    ensures { result ≡ rest_ok block_size start region several pending plugged }
{
    span_within(start, region, several)
        & (several_ok(several, region) & pending_ok(pending, block_size, region, several, plugged))
}

// Whether the record has the shape: 12 is given where it has not (R3.2).
// The alignment comes first: past its test it is a power of two, and a remainder by it is a mask.
// Past the test of the block size that is a number the compiler knows, and a remainder by it is a mask too.
pub fn shaped(d: Device) -> bool
    ensures { result ≡ shaped_of d }
{
    let block_size = d.config.block_size;
    let alignment = d.alignment;
    let region = d.config.region_size;
    let requested = d.config.requested_size;
    let usable = d.config.usable_region_size;
    let plugged = d.config.plugged_size;
    let start = d.config.addr.0;
    let several = d.several;
    if !alignment_ok(alignment) {
        return false;
    }
    if !region_ok(region, alignment) {
        return false;
    }
    if block_size != MemTool::BLOCK_SIZE {
        return false;
    }
    if !blocks_ok(block_size, requested, usable, plugged) {
        return false;
    }
    if !inside_ok(requested, usable, plugged, region) {
        return false;
    }
    if start % alignment != 0 {
        return false;
    }
    let pending = d.pending;
    let alone = !several & is_idle(pending);
    if alone {
        return sum_within(start, region, u64::MAX);
    }
    // A copy of its own, so that a device that waits for nothing makes none.
    let waits_for = d.pending;
    rest_ok(block_size, start, region, several, waits_for, plugged)
}

// Whether config fields have the shape that every device's have (R3.10): that of a single region with the least
// alignment, waiting for nothing.
pub fn config_shaped(config: VirtioMemConfig) -> bool
    ensures { result ≡ config_shaped_of config }
{
    let pending = Pending::Nothing;
    shaped(Device {
        config: config,
        alignment: MemTool::MIN_ALIGNMENT,
        several: false,
        avail_features: 1 << VIRTIO_F_VERSION_1,
        placed: true,
        pending: pending,
    })
}

// Whether no host call is pending.
pub fn is_idle(pending: Pending) -> bool
    ensures { result ≡ is_idle pending }
{
    matches!(pending, Pending::Nothing)
}

// The feature number, for a device with or without a node (R4.6).
pub fn features(node_given: bool) -> u64
    ensures { result ≡ features_of node_given }
{
    if node_given {
        (1 << VIRTIO_F_VERSION_1) + (1 << VIRTIO_MEM_F_ACPI_PXM)
    } else {
        1 << VIRTIO_F_VERSION_1
    }
}
