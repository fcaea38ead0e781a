// SPDX-License-Identifier: Apache-2.0 AND BSD-3-Clause
// What the calls of a file stand on: a device, a bitmap, a map table, slots and guest memory.
use super::{Line, small};
use making::Mem;
use record::{Device, Pending};
use std::cmp::min;
use units::GuestAddr;
use wire::VirtioMemConfig;

// So many bytes of the bitmap and words of the table are lent to calls. Guest memory is at 4096.
#[derive(Drop)]
pub struct World {
    pub device: Device,
    bitmap: [u8; 32768],
    bytes: usize,
    table: [u64; 1536],
    words: usize,
    slots: [u32; 512],
    pub mem: [u8; 112],
}

// What is lent to a call.
#[derive(Drop)]
pub struct Lent<'a> {
    pub bitmap: &'a mut [u8],
    pub table: &'a mut [u64],
    pub slots: &'a [u32],
    pub mem: &'a mut [u8],
}

// The first of them, where there are so many.
fn front_mut<T>(s: &mut [T], count: usize) -> &mut [T] {
    let n = min(count, s.len());
    &mut s[..n]
}

// A device by the numbers of its row: its alignment is 128 MiB, and nothing is pending.
fn device_of(v: [u64; 8]) -> Device {
    Device {
        config: VirtioMemConfig {
            block_size: v[0],
            node_id: 0,
            addr: GuestAddr(v[3]),
            region_size: v[1],
            usable_region_size: v[5],
            plugged_size: v[6],
            requested_size: v[4],
        },
        alignment: 134217728,
        several: v[2] == 1,
        avail_features: 4294967296,
        placed: v[7] == 1,
        pending: Pending::Nothing,
    }
}

impl World {
    pub fn new() -> World {
        World {
            device: device_of([0; 8]),
            bitmap: [0; 32768],
            bytes: 0,
            table: [0; 1536],
            words: 0,
            slots: [4294967295; 512],
            mem: [0; 112],
        }
    }

    pub fn bitmap(&mut self) -> &mut [u8] {
        let bytes = self.bytes;
        front_mut(&mut self.bitmap, bytes)
    }

    pub fn table(&mut self) -> &mut [u64] {
        let words = self.words;
        front_mut(&mut self.table, words)
    }

    pub fn lend(&mut self) -> Lent<'_> {
        let (bytes, words) = (self.bytes, self.words);
        let World {
            bitmap,
            table,
            slots,
            mem,
            ..
        } = self;
        Lent {
            bitmap: front_mut(bitmap, bytes),
            table: front_mut(table, words),
            slots,
            mem,
        }
    }

    // The commands with a capital say what the calls stand on: blocks of the bitmap, a word of the map table, a slot,
    // how much is lent, a record before any request, what is pending, its alignment, and a device that is made. Whether
    // it is one.
    pub fn set(&mut self, line: Line) -> bool {
        let v = line.v;
        match line.kind {
            b'B' => bitmap::set_range(&mut self.bitmap, block(v[0]), block(v[1]), v[2] == 1),
            b'W' => {
                if let Some(word) = self.table.get_mut(small(v[0])) {
                    *word = v[1];
                }
            }
            b'S' => {
                if let Some(slot) = self.slots.get_mut(small(v[0])) {
                    *slot = (v[1] % 4294967296) as u32;
                }
            }
            b'L' => {
                self.bytes = small(v[0]);
                self.words = small(v[1]);
            }
            b'R' => {
                self.device = device_of(v);
                self.mem = [0; 112];
            }
            b'C' => {
                self.device.pending = Pending::Create {
                    first: v[0],
                    last: v[1],
                };
            }
            b'D' => {
                self.device.pending = Pending::Discard {
                    first: v[0],
                    count: v[1],
                    status: GuestAddr(v[2]),
                };
            }
            b'O' => {
                self.device.pending = Pending::DiscardOne {
                    block: v[0],
                    status: GuestAddr(v[1]),
                };
            }
            b'A' => self.device.alignment = v[0],
            b'M' => match Mem::new(v[0], v[1], v[2] == 1, None, v[3]) {
                Ok(d) => self.device = d,
                Err(_) => return false,
            },
            _ => return false,
        }
        true
    }
}

fn block(n: u64) -> usize {
    (n % 4294967296) as usize
}
