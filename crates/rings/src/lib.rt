// SPDX-License-Identifier: Apache-2.0 AND BSD-3-Clause
// The available and the used ring of a split queue of 128, over lent guest memory: the next head, and a head put back
// with its length. Indices are 16 bits and wrap; a ring's entry is an index modulo 128.
#![tactic(auto)]

ghost use Rattle.std.specs.Prelude.{◌≡◌, length};
ghost use Rattle.descriptors.specs.Descriptors.{inside};
ghost use Rattle.rings.specs.Rings.{ahead_of, index_after, rings_inside, next_head, reported};

use descriptors::place_of;
use little_endian::{read_u16, write_u16, write_u32};
use refusal::Refusal;
use units::GuestAddr;

// The entries of a ring.
const QUEUE_SIZE: u16 = 128;

// The bytes of the available ring: flags, index, 128 heads, used_event.
const AVAILABLE_SIZE: u64 = 262;

// The bytes of the used ring: flags, index, 128 elements of 8 bytes, avail_event.
const USED_SIZE: u64 = 1030;

// Where the guest has its queue, and where the device stands in it.
#[derive(Clone, Copy)]
pub struct Queue {
    pub descriptors: GuestAddr,
    pub available: GuestAddr,
    pub used: GuestAddr,
    pub next_available: u16,
    pub next_used: u16,
    pub taken: Option<u16>,
}

// How far an index is ahead of another.
fn ahead_of(index: u16, of: u16) -> u16
    ensures { result ≡ ahead_of index of }
{
    ((index as u32 + 65536 - of as u32) % 65536) as u16
}

// The index after an index.
pub fn index_after(index: u16) -> u16
    ensures { result ≡ index_after index }
{
    ((index as u32 + 1) % 65536) as u16
}

// Whether bytes lie inside the memory.
fn is_inside(mem: &[u8], base: GuestAddr, addr: GuestAddr, size: u64) -> bool
    ensures { result ≡ inside (length mem.now) base.0 addr.0 size }
{
    let Some(_) = place_of(mem, base, addr, size) else {
        return false;
    };
    true
}

// Whether both rings lie inside the memory (14).
pub fn rings_inside(mem: &[u8], base: GuestAddr, q: Queue) -> bool
    ensures { result ≡ rings_inside (length mem.now) base.0 q }
{
    let available = is_inside(mem, base, q.available, AVAILABLE_SIZE);
    let used = is_inside(mem, base, q.used, USED_SIZE);
    available & used
}

// The next head, if there is one; or 14, 15. Nothing is taken yet.
pub fn next_head(mem: &[u8], base: GuestAddr, q: Queue) -> Result<Option<u16>, Refusal>
    ensures { result ≡ next_head mem.now base.0 q }
{
    if !rings_inside(mem, base, q) {
        return Err(Refusal::RingOutside);
    }
    let available = (q.available.0 - base.0) as usize;
    let ahead = ahead_of(read_u16(mem, available + 2), q.next_available);
    let over_full = QUEUE_SIZE < ahead;
    if over_full {
        return Err(Refusal::RingOverfull);
    }
    if ahead == 0 {
        return Ok(None);
    }
    let entry = (q.next_available % QUEUE_SIZE) as usize;
    let head = read_u16(mem, available + 4 + 2 * entry);
    Ok(Some(head))
}

// Puts a head and its length into the used ring, where the ring is inside: the element first, and then the index.
pub fn report(mem: &mut [u8], base: GuestAddr, used: GuestAddr, index: u16, head: u16, length: u32)
    ensures { mem.new ≡ reported mem.old base.0 used.0 index head length }
{
    let Some(at) = place_of(&mem[..], base, used, USED_SIZE) else {
        return;
    };
    let element = at + 4 + 8 * (index % QUEUE_SIZE) as usize;
    write_u32(mem, element, head as u32);
    write_u32(mem, element + 4, length);
    write_u16(mem, at + 2, index_after(index));
}
