// SPDX-License-Identifier: Apache-2.0 AND BSD-3-Clause
// Calls on worlds of their own, with faults: a row has 1 at the number of each refusal that there is a reason for.
use super::calls::Call;
use super::world::{Numbers, World, taken_of};
use record::Pending;
use units::GuestAddr;

// Block 0 is plugged. With faults the plugged size is no multiple of the block size, the bitmap is a byte short, and
// the memory ends a byte before the used ring does. A request for the state of block 0 is offered, with this index.
fn faulty(shape: u64, short: u64, outside: u64, index: u64) -> World {
    let mut world = World::fresh();
    world.bitmap[0] = 1;
    world.device.config.plugged_size = 4194304 + shape % 2;
    world.bytes = 8 - (short % 2) as usize;
    world.to = 4096 - 507 * (outside % 2) as usize;
    world.put_chain([0, 7700, 3, 0, 1, 7900]);
    world.offer(0, 0, index);
    world
}

// Taking a head: 12, 7 by a creation that is pending, 5, 11 and 14, and the available index.
pub fn take(v: Numbers) -> World {
    let mut world = faulty(v[0], v[3], v[4], v[5]);
    if v[1] % 2 == 1 {
        world.device.pending = Pending::Create { first: 0, last: 0 };
    }
    world.device.placed = v[2] % 2 == 0;
    world.make(Call::Serve);
    world
}

// The host's answer to a discard: 12, 8, 11 and 14, and the head that is out, plus 1.
pub fn answer(v: Numbers) -> World {
    let mut world = faulty(v[0], v[2], v[3], 0);
    if v[1] == 0 {
        world.device.pending = Pending::Discard {
            first: 0,
            count: 1,
            status: GuestAddr(7900),
        };
    }
    world.queue.taken = taken_of(v[4]);
    world.make(Call::Host { ok: true, addr: 0 });
    world
}
