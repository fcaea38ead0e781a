// SPDX-License-Identifier: Apache-2.0 AND BSD-3-Clause
// The entries that change a lent device where it stands: each calls the one by value and stores the record it gave.
#![tactic(auto)]

ghost use Rattle.std.specs.Prelude.{[]};
ghost use Rattle.step.specs.Promise.{lent, place_on, resize_on, request_on, answer_on, Steps};
ghost use Rattle.in_place.specs.Stored.{answering};

use record::Device;
use step::Answer;
use units::{GuestAddr, HostAddr};

// Places a lent device.
pub fn place(
    d: &mut Device,
    bitmap: &mut [u8],
    table: &mut [u64],
    start: GuestAddr,
    size: u64,
    slots: &[u32],
) -> Answer
    ensures { Steps d.old (place_on start.0 size slots.now)
        (lent bitmap.old table.old [])
        (lent bitmap.new table.new []) (answering d.new result) }
{
    let s = placing::place(*d, bitmap, table, start, size, slots);
    *d = s.device;
    s.answer
}

// Changes the requested size of a lent device.
pub fn set_requested_size(
    d: &mut Device,
    bitmap: &[u8],
    table: &[u64],
    requested_mib: u64,
) -> Answer
    ensures { Steps d.old (resize_on requested_mib)
        (lent bitmap.now table.now [])
        (lent bitmap.now table.now []) (answering d.new result) }
{
    let s = placing::set_requested_size(*d, bitmap, table, requested_mib);
    *d = s.device;
    s.answer
}

// Serves the chain at `head` of the queue whose descriptors are at an address, over a lent device.
pub fn request(
    d: &mut Device,
    bitmap: &mut [u8],
    table: &[u64],
    mem: &mut [u8],
    base: GuestAddr,
    descriptors: GuestAddr,
    head: u16,
) -> Answer
    ensures { Steps d.old (request_on base.0 descriptors.0 head)
        (lent bitmap.old table.now mem.old)
        (lent bitmap.new table.now mem.new) (answering d.new result) }
{
    let s = serving::request(*d, bitmap, table, mem, base, descriptors, head);
    *d = s.device;
    s.answer
}

// Goes on with what a lent device asked of the host.
pub fn host_answer(
    d: &mut Device,
    bitmap: &mut [u8],
    table: &mut [u64],
    mem: &mut [u8],
    base: GuestAddr,
    ok: bool,
    host: HostAddr,
) -> Answer
    ensures { Steps d.old (answer_on base.0 ok host.0)
        (lent bitmap.old table.old mem.old)
        (lent bitmap.new table.new mem.new) (answering d.new result) }
{
    let s = serving::host_answer(*d, bitmap, table, mem, base, ok, host);
    *d = s.device;
    s.answer
}
