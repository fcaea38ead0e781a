// SPDX-License-Identifier: Apache-2.0 AND BSD-3-Clause
// A device, saved and restored, and the lines of a trace on it.
use super::parts::{Row, UNTOUCHED, lay, refused};
use super::texts::{told_length, told_text};
use bitmap::{count_set, set_range};
use forms::put_form;
use little_endian::read_u64;
use record::{Device, Pending};
use std::num::wrapping_sub_usize;
use test_support::front;
use trace_run::{Run, serve};
use units::GuestAddr;
use wire::VirtioMemConfig;

// A device, its bitmap, and how many bytes of that are lent.
#[derive(Drop)]
pub struct World {
    device: Device,
    bitmap: [u8; 32776],
    bytes: usize,
}

// device: columns align, several, placed, pending.
fn device_of(v: Row) -> Device {
    Device {
        config: VirtioMemConfig {
            block_size: v[0],
            node_id: 0,
            addr: GuestAddr(v[1]),
            region_size: v[2],
            usable_region_size: v[4],
            plugged_size: v[5],
            requested_size: v[3],
        },
        alignment: v[13],
        several: v[14] == 1,
        avail_features: 4294967296,
        placed: v[15] == 1,
        pending: if v[16] == 0 {
            Pending::Nothing
        } else {
            Pending::Create { first: 0, last: 0 }
        },
    }
}

impl World {
    pub fn new() -> World {
        World {
            device: device_of([0; 17]),
            bitmap: [0; 32776],
            bytes: 0,
        }
    }

    // device: column bytes too.
    pub fn make(&mut self, out: &mut [u8], v: Row) -> usize {
        set_range(&mut self.bitmap, 0, 262208, false);
        lay(&mut self.bitmap, v);
        self.device = device_of(v);
        self.bytes = v[12] as usize;
        put_form(out, b"made", &[])
    }

    // How many bits of all that there is are set.
    fn count(&self) -> u64 {
        count_set(&self.bitmap, 0, 262208) as u64
    }

    // restore: a text. The answer: what the device has then, the first 64 blocks of its bitmap, and how many bits are
    // set; where nothing was restored, there are to be as many as before.
    pub fn restore(&mut self, out: &mut [u8], s: &[u8]) -> usize {
        let before = self.count();
        let Some(bitmap) = self.bitmap.get_mut(..self.bytes) else {
            return 0;
        };
        match saving::restore(self.device, bitmap, s) {
            Err(refusal) => refused(out, refusal, self.count() == before),
            Ok(d) => {
                self.device = d;
                let c = d.config;
                put_form(
                    out,
                    b"requested=# usable=# plugged=# blocks=# set=#",
                    &[
                        c.requested_size,
                        c.usable_region_size,
                        c.plugged_size,
                        read_u64(&self.bitmap, 0),
                        self.count(),
                    ],
                )
            }
        }
    }

    // save: column room.
    pub fn save(&self, out: &mut [u8], room: u64) -> usize {
        let mut buffer = [UNTOUCHED; 256];
        let Some(room) = buffer.get_mut(..room as usize) else {
            return 0;
        };
        let wrote = saving::save(self.device, front(&self.bitmap, self.bytes), room);
        told_text(out, wrote, &buffer)
    }

    pub fn measure(&self, out: &mut [u8]) -> usize {
        let lent = front(&self.bitmap, self.bytes);
        told_length(out, saving::save_length(self.device, lent))
    }

    // op: a line of a trace, and what it prints, without its newline; two map regions are mapped.
    pub fn trace(&mut self, out: &mut [u8], line: &[u8]) -> usize {
        let mut table = [7, 1, 140737488355328, 8, 1, 140739635838976];
        let mut mem = [0; 128];
        let shown = serve(
            Run::On(self.device),
            &mut self.bitmap,
            &mut table,
            &mut mem,
            line,
            out,
        );
        if let Run::On(d) = shown.run {
            self.device = d;
        }
        wrapping_sub_usize(shown.length, 1)
    }
}
