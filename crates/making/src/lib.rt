// SPDX-License-Identifier: Apache-2.0 AND BSD-3-Clause
// Making a device from its sizes.
#![tactic(auto)]

ghost use Rattle.std.specs.Prelude.{◌≡◌, not, ◌*◌, ◌≤◌};
ghost use Rattle.units.specs.Numbers.{capacity_of, MiB, GiB};
ghost use Rattle.record.specs.Shape.{size_ok};
ghost use Rattle.making.specs.Made.{new_device, made, MadeAs};

use record::{Device, Pending, features};
use refusal::Refusal;
use units::{MemTool, alignment_of, is_multiple, next_multiple_of, product_within};
use wire::VirtioMemConfig;

// The largest capacity: 1 TiB.
const MAX_CAPACITY_MIB: u64 = 1048576;

// The region of a capacity.
fn region_of(capacity_mib: u64, alignment: u64) -> u64
    requires { (capacity_mib ≤ 1048576) × (alignment ≤ 2 * GiB) }
    ensures { result ≡ capacity_of capacity_mib alignment }
{
    next_multiple_of(capacity_mib * MemTool::MIB, 2 * alignment)
}

// Whether a requested size is refused as 1: above the region, or not whole blocks.
pub fn requested_refused(mib: u64, region: u64, block_size: u64) -> bool
    ensures { result ≡ not (size_ok block_size (mib * MiB) region) }
{
    if !product_within(mib, MemTool::MIB, region) {
        return true;
    }
    !is_multiple(mib * MemTool::MIB, block_size)
}

// The record of a new device. Without a node its number is 0 (R4.6).
fn new_device(
    region: u64,
    requested: u64,
    alignment: u64,
    several: bool,
    node: Option<u16>,
) -> Device
    ensures { result ≡ new_device region requested alignment several node }
{
    let config = VirtioMemConfig::new(MemTool::BLOCK_SIZE, node.unwrap_or(0), region, requested);
    let pending = Pending::Nothing;
    Device {
        config: config,
        alignment: alignment,
        several: several & (MemTool::MAP_REGION_SIZE < region),
        avail_features: features(node.is_some()),
        placed: false,
        pending: pending,
    }
}

// The constructor stays with `Mem`, as in mem.rs.
#[derive(Clone, Copy)]
pub struct Mem {}

impl Mem {
    // Makes a device from sizes in MiB, whose bytes may pass 2^64 - 1. 2, 1 (R2.1).
    pub fn new(
        capacity_mib: u64,
        requested_mib: u64,
        several: bool,
        node: Option<u16>,
        boot: u64,
    ) -> Result<Device, Refusal>
        ensures { MadeAs (made capacity_mib requested_mib several node boot) result }
    {
        let too_large = MAX_CAPACITY_MIB < capacity_mib;
        if too_large {
            return Err(Refusal::CapacityTooLarge);
        }
        if capacity_mib == 0 {
            return Err(Refusal::WrongSize);
        }
        let alignment = alignment_of(boot);
        let region = region_of(capacity_mib, alignment);
        if requested_refused(requested_mib, region, MemTool::BLOCK_SIZE) {
            return Err(Refusal::WrongSize);
        }
        let requested = requested_mib * MemTool::MIB;
        Ok(new_device(region, requested, alignment, several, node))
    }
}
