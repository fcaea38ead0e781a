// SPDX-License-Identifier: Apache-2.0 AND BSD-3-Clause
// What the calls stand on, and what the last command told.
use super::memory::Memory;
use record::{Device, Pending};
use rings::Queue;
use std::num::wrapping_sub_u64;
use step::Answer;
use test_support::narrow;
use units::GuestAddr;
use wire::VirtioMemConfig;

// The numbers of a row, in their order, and 0 where there are no more.
pub type Numbers = [u64; 6];

#[derive(Clone, Copy)]
pub enum Told {
    Nothing,

    // What a call answered, if it found a head.
    Call(Option<Answer>),

    // A call was refused, or found no head, and changed something.
    Changed,

    // Of a look.
    Number(u64),
    Element(u64),
    Response(u64, u64),

    // How many requests of a run went right.
    Requests(u64),
}

// The device with blocks 0 to 63 and a map table of one row, of which so many bytes and words are lent, and the queue.
// The bytes `from` to `to` of the memory are lent, the first of them at `base`.
#[derive(Clone, Copy)]
pub struct World {
    pub device: Device,
    pub queue: Queue,
    pub bitmap: [u8; 8],
    pub bytes: usize,
    pub table: [u64; 3],
    pub words: usize,
    pub memory: Memory,
    pub base: GuestAddr,
    pub from: usize,
    pub to: usize,
    pub told: Told,
}

// The head that is out by the queue's word: the head plus 1, or 0 where none is.
pub fn taken_of(word: u64) -> Option<u16> {
    word.checked_sub(1).map(narrow)
}

pub fn word_of(taken: Option<u16>) -> u64 {
    taken.map_or(0, |head| head as u64 + 1)
}

// What is pending, by the number that the table has for it.
fn pending_of(v: Numbers) -> Pending {
    match v[0] {
        0 => Pending::Nothing,
        1 => Pending::Create {
            first: v[1],
            last: v[2],
        },
        2 => Pending::Discard {
            first: v[1],
            count: v[2],
            status: GuestAddr(v[3]),
        },
        _ => Pending::DiscardOne {
            block: v[1],
            status: GuestAddr(v[3]),
        },
    }
}

impl World {
    // A device of 256 MiB at 4 GiB with one region, placed and mapped: 16 MiB are requested, all is usable and nothing
    // is plugged. Memory of 4096 bytes at 4096: the descriptors at its start, the available ring at 6144, the used ring
    // at 6656 and room from 7686 on.
    pub fn fresh() -> World {
        World {
            device: Device {
                config: VirtioMemConfig {
                    block_size: 4194304,
                    node_id: 0,
                    addr: GuestAddr(4294967296),
                    region_size: 268435456,
                    usable_region_size: 268435456,
                    plugged_size: 0,
                    requested_size: 16777216,
                },
                alignment: 134217728,
                several: false,
                avail_features: 4294967296,
                placed: true,
                pending: Pending::Nothing,
            },
            queue: Queue {
                descriptors: GuestAddr(4096),
                available: GuestAddr(6144),
                used: GuestAddr(6656),
                next_available: 0,
                next_used: 0,
                taken: None,
            },
            bitmap: [0; 8],
            bytes: 8,
            table: [7, 1, 140737488355328],
            words: 3,
            memory: Memory::new(18446744073709547520),
            base: GuestAddr(4096),
            from: 0,
            to: 4096,
            told: Told::Nothing,
        }
    }

    // Blocks 0 to 63, a bit each.
    pub fn blocks(&self) -> u64 {
        little_endian::read_u64(&self.bitmap, 0)
    }

    // The record, the queue, the row and the blocks, as words.
    pub fn state(&self) -> [u64; 25] {
        let q = self.queue;
        let mut state = [0; 25];
        words::encode(self.device, &mut state);
        state[15] = q.descriptors.0;
        state[16] = q.available.0;
        state[17] = q.used.0;
        state[18] = q.next_available as u64;
        state[19] = q.next_used as u64;
        state[20] = word_of(q.taken);
        state[21] = self.table[0];
        state[22] = self.table[1];
        state[23] = self.table[2];
        state[24] = self.blocks();
        state
    }

    pub fn set_device(&mut self, v: Numbers) {
        let c = &mut self.device.config;
        c.requested_size = v[0];
        c.usable_region_size = v[1];
        c.plugged_size = v[2];
        self.device.placed = v[3] == 1;
    }

    pub fn set_pending(&mut self, v: Numbers) {
        self.device.pending = pending_of(v);
    }

    pub fn set_next(&mut self, available: u64, used: u64) {
        self.queue.next_available = narrow(available);
        self.queue.next_used = narrow(used);
    }

    pub fn set_rings(&mut self, v: Numbers) {
        self.queue.descriptors = GuestAddr(v[0]);
        self.queue.available = GuestAddr(v[1]);
        self.queue.used = GuestAddr(v[2]);
    }

    pub fn lend_memory(&mut self, base: u64, from: u64, to: u64) {
        self.base = GuestAddr(base);
        self.from = from as usize;
        self.to = to as usize;
        self.memory.shift = wrapping_sub_u64(from, base);
    }

    pub fn lend_tables(&mut self, bytes: u64, words: u64) {
        self.bytes = bytes as usize;
        self.words = words as usize;
    }
}
