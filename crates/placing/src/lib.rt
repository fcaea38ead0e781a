// SPDX-License-Identifier: Apache-2.0 AND BSD-3-Clause
// Placing and resizing a device.
#![tactic(auto)]

ghost use Rattle.std.specs.Prelude.{◌≡◌, true, [], ◌+◌, ◌*◌, ◌≤◌};
ghost use Rattle.units.specs.Numbers.{top, map_region};
ghost use Rattle.step.specs.World.{world_of, answered_by};
ghost use Rattle.step.specs.Step.{asks_create, resized, placing, range_refusal};
ghost use Rattle.step.specs.Promise.{lent, place_on, resize_on, Steps};

use bitmap::set_range;
use making::requested_refused;
use record::{Device, HostCall, Pending, start_ok};
use refusal::Refusal;
use resize::{growth_of, new_size};
use rows::{lay, slot_of};
use step::{Answer, Answered, Shaped, ready_refusal, refuse_as, sized, unplaced_refusal};
use units::{GuestAddr, MemTool, RegionOffset, map_regions};

// Asks for one creation that covers the rows from `first` to `last`.
fn ask_creation(d: Device, table: &[u64], first: u64, last: u64, size: u64) -> Answered
    requires { d.config.addr.0 + first * map_region ≤ top }
    ensures { result ≡ answered_by (asks_create (world_of d [] table.now) first last size) }
{
    let start = d.config.addr;
    let guest = RegionOffset::of_map_region(first).guest_from(start);
    let slot = slot_of(table, first);
    let pending = Pending::Create {
        first: first,
        last: last,
    };
    let call = HostCall::Create {
        guest: guest,
        size: size,
        slot: slot,
    };
    Answered {
        device: Device {
            pending: pending,
            ..d
        },
        answer: Answer::Wants(call),
    }
}

// Works out the usable size, or asks for the creation that its growth needs.
fn resize(shaped: Shaped, table: &[u64]) -> Answered
    ensures { result ≡ answered_by (resized (world_of shaped.device [] table.now)) }
{
    let d = shaped.device;
    let config = d.config;
    let region = config.region_size;
    let new = new_size(
        region,
        config.requested_size,
        d.alignment,
        config.block_size,
    );
    let growth = growth_of(region, d.several, config.usable_region_size, new, table);
    let Some(creation) = growth else {
        return Answered {
            device: sized(d),
            answer: Answer::Sized,
        };
    };
    ask_creation(d, table, creation.first, creation.last, creation.size)
}

// Changes the requested size, and the usable size with it.
pub fn set_requested_size(d: Device, bitmap: &[u8], table: &[u64], requested_mib: u64) -> Answered
    ensures { Steps d (resize_on requested_mib)
        (lent bitmap.now table.now [])
        (lent bitmap.now table.now []) result }
{
    if let Err(refusal) = ready_refusal(d, bitmap.len(), table.len()) {
        return refuse_as(d, refusal);
    }
    if requested_refused(requested_mib, d.config.region_size, d.config.block_size) {
        return refuse_as(d, Refusal::WrongSize);
    }
    let requested = requested_mib * MemTool::MIB;
    let mut asked = d;
    asked.config.requested_size = requested;
    resize(Shaped { device: asked }, table)
}

// Whether placing passes its own tests: 3, 4.
#[tactic(auto, unfolding(step::specs::Step::range_refusal))]
fn range_refusal(d: Device, start: GuestAddr, size: u64, slots: u64) -> Result<(), Refusal>
    ensures { result ≡ range_refusal d start.0 size slots }
{
    let region = d.config.region_size;
    let several = d.several;
    let right_range = (slots == map_regions(region, several)) & (size == region);
    if !right_range {
        return Err(Refusal::WrongRange);
    }
    if start_ok(start, region, several, d.alignment) {
        Ok(())
    } else {
        Err(Refusal::WrongStart)
    }
}

// What placing asks for: a single region wants all of it created, several regions what the usable size wants.
fn ask_placing(shaped: Shaped, table: &[u64]) -> Answered
    ensures { result ≡ answered_by (placing (world_of shaped.device [] table.now)) }
{
    let d = shaped.device;
    if d.several {
        return resize(shaped, table);
    }
    ask_creation(d, table, 0, 0, d.config.region_size)
}

// Places the device: clears the bitmap, gives each row its slot, and asks the host for what must be mapped first.
pub fn place(
    d: Device,
    bitmap: &mut [u8],
    table: &mut [u64],
    start: GuestAddr,
    size: u64,
    slots: &[u32],
) -> Answered
    ensures { Steps d (place_on start.0 size slots.now)
        (lent bitmap.old table.old [])
        (lent bitmap.new table.new []) result }
{
    if let Err(refusal) = unplaced_refusal(d, bitmap.len(), table.len()) {
        return refuse_as(d, refusal);
    }
    if let Err(refusal) = range_refusal(d, start, size, slots.len() as u64) {
        return refuse_as(d, refusal);
    }
    let blocks = MemTool::blocks_in(d.config.region_size, d.config.block_size);
    set_range(bitmap, 0, blocks as usize, false);
    lay(table, slots);
    let mut config = d.config;
    config.addr = start;
    let started = Device {
        config: config,
        ..d
    };
    ask_placing(Shaped { device: started }, table)
}
