// SPDX-License-Identifier: Apache-2.0 AND BSD-3-Clause
// Where bytes lie in guest memory, which is one lent slice with a base address, and the descriptors in it.
#![tactic(auto)]

ghost use Rattle.std.specs.Prelude.{◌≡◌, ◌+◌, ◌^◌, ◌≤◌, leb, length};
ghost use Rattle.descriptors.specs.Standard.{descriptor_at, has_next, is_write_only, is_indirect};
ghost use Rattle.descriptors.specs.Descriptors.{place_of, link_at, link_after};

use little_endian::{read_u16, read_u32, read_u64};
use units::{GuestAddr, sum_within};

// The last address that a byte can have.
const LAST_BYTE: u64 = 18446744073709551615;

// The descriptors of the table.
const QUEUE_SIZE: u16 = 128;

// The flags of a descriptor.
const NEXT: u16 = 1;

const WRITE: u16 = 2;

const INDIRECT: u16 = 4;

// Whether `size` bytes at an address end before 2^64: no sum is made.
fn ends_below(addr: u64, size: u64) -> bool
    ensures { result ≡ leb (addr + size) (2 ^ 64) }
{
    if size == 0 {
        return true;
    }
    addr <= LAST_BYTE - (size - 1)
}

// Whether `size` bytes at a guest address lie inside the memory, and where.
pub fn place_of(mem: &[u8], base: GuestAddr, addr: GuestAddr, size: u64) -> Option<usize>
    ensures { result ≡ place_of (length mem.now) base.0 addr.0 size }
{
    let first = base.0;
    let at = addr.0;
    if at < first {
        return None;
    }
    if sum_within(at - first, size, mem.len() as u64) & ends_below(at, size) {
        Some((at - first) as usize)
    } else {
        None
    }
}

// A descriptor of the table.
#[derive(Clone, Copy)]
pub struct Descriptor {
    pub addr: GuestAddr,
    pub len: u32,
    pub flags: u16,
    pub next: u16,
}

impl Descriptor {
    pub fn has_next(self) -> bool
        ensures { result ≡ has_next self }
    {
        self.flags / NEXT % 2 == 1
    }

    pub fn is_write_only(self) -> bool
        ensures { result ≡ is_write_only self }
    {
        self.flags / WRITE % 2 == 1
    }

    pub fn is_indirect(self) -> bool
        ensures { result ≡ is_indirect self }
    {
        self.flags / INDIRECT % 2 == 1
    }
}

// The descriptor of the 16 bytes from `at` on.
fn descriptor_at(mem: &[u8], at: usize) -> Descriptor
    requires { at + 16 ≤ length mem.now }
    ensures { result ≡ descriptor_at mem.now at }
{
    let addr = read_u64(mem, at);
    let len = read_u32(mem, at + 8);
    let flags = read_u16(mem, at + 12);
    let next = read_u16(mem, at + 14);
    Descriptor {
        addr: GuestAddr(addr),
        len,
        flags,
        next,
    }
}

// The descriptor of the table at an index.
pub fn link_at(mem: &[u8], base: GuestAddr, table: GuestAddr, index: u16) -> Option<Descriptor>
    ensures { result ≡ link_at mem.now base.0 table.0 index }
{
    let past_table = QUEUE_SIZE <= index;
    if past_table {
        return None;
    }
    let offset = 16 * index as u64;
    if !sum_within(table.0, offset, LAST_BYTE) {
        return None;
    }
    let Some(at) = place_of(mem, base, GuestAddr(table.0 + offset), 16) else {
        return None;
    };
    Some(descriptor_at(mem, at))
}

// The descriptor after a descriptor.
pub fn link_after(
    mem: &[u8],
    base: GuestAddr,
    table: GuestAddr,
    current: Descriptor,
) -> Option<Descriptor>
    ensures { result ≡ link_after mem.now base.0 table.0 current }
{
    if current.has_next() {
        link_at(mem, base, table, current.next)
    } else {
        None
    }
}
