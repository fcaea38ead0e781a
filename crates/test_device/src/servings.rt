// SPDX-License-Identifier: Apache-2.0 AND BSD-3-Clause
// Requests and discard answers: each with its answer and all that it leaves. Reads of the config.
use super::Line;
use super::world::{Lent, World};
use little_endian::{read_u16, read_u64, write_u16, write_u64};
use record::HostCall;
use std::io;
use step::{Answer, Answered};
use test_support::narrow;
use units::{GuestAddr, HostAddr};

// The length, flags and next index of the two descriptors: 24 bytes with the next flag, then 10 to be written.
const FIRST: u64 = 24 + (1 << 32) + (1 << 48);

const SECOND: u64 = 10 + (2 << 32);

// Where guest memory is, with the descriptors at its start.
const START: GuestAddr = GuestAddr(4096);

fn show_answer(rt: &impl Print, answer: Answer) -> io::Result<()> {
    match answer {
        Answer::Refused(number) => print!(rt; "refuse={number}"),
        Answer::Wants(HostCall::Create { .. }) => print!(rt; "want=create"),
        Answer::Wants(HostCall::Discard { offset, size, host }) => {
            print!(rt;
                "want=discard offset={} size={size} host={}",
                offset.0, host.0
            )
        }
        Answer::Sized => print!(rt; "sized"),
        Answer::Unserved(reason) => print!(rt; "length=0 reason={reason}"),
        Answer::Served(reply) => {
            let r = reply.response;
            print!(rt;
                "resp={} state={} length={} why={}",
                r.resp_type, r.state, reply.used, reply.why
            )
        }
        Answer::Done => print!(rt; "done"),
    }
}

// The device goes on as it was left. The answer, the plugged size, blocks 0 to 63 and 512 to 575 as numbers, and the
// type and state at the usual status address.
fn go_on(rt: &impl Print, world: &mut World, s: Answered) -> io::Result<()> {
    world.device = s.device;
    let Lent { bitmap, mem, .. } = world.lend();
    let plugged = s.device.config.plugged_size;
    let (first, later) = (read_u64(bitmap, 0), read_u64(bitmap, 64));
    let (resp_type, state) = (read_u16(mem, 96), read_u16(mem, 104));
    show_answer(rt, s.answer)?;
    println!(rt; " plugged={plugged} blocks={first},{later} status={resp_type},{state}")
}

// Guest memory from 4096 on: a chain of two descriptors, a request at 64, and ones everywhere else, at 96 too, where
// the response goes.
fn laid(req_type: u64, addr: u64, blocks: u64, status: u64) -> [u8; 112] {
    let mut mem = [255; 112];
    write_u64(&mut mem, 0, 4160);
    write_u64(&mut mem, 8, FIRST);
    write_u64(&mut mem, 16, status);
    write_u64(&mut mem, 24, SECOND);
    write_u16(&mut mem, 64, narrow(req_type));
    write_u64(&mut mem, 72, addr);
    write_u16(&mut mem, 80, narrow(blocks));
    mem
}

// Whether a line is a command. A request is by a chain that is laid for it; of the config eight bytes are read, as one
// number; and there may be another request in memory, which nobody asks the device to read.
pub fn call(rt: &impl Print, world: &mut World, line: Line) -> io::Result<bool> {
    let v = line.v;
    let d = world.device;
    match line.kind {
        b't' => {
            print!(rt; "type={} addr={} blocks={} -> ", v[0], v[1], v[2])?;
            world.mem = laid(v[0], v[1], v[2], v[3]);
            let Lent {
                bitmap,
                table,
                mem,
                ..
            } = world.lend();
            let s = serving::request(d, bitmap, table, mem, START, START, 0);
            go_on(rt, world, s)?;
        }
        b'h' => {
            print!(rt; "host ok={} -> ", v[0])?;
            let Lent {
                bitmap,
                table,
                mem,
                ..
            } = world.lend();
            let s = serving::host_answer(d, bitmap, table, mem, START, v[0] == 1, HostAddr(0));
            go_on(rt, world, s)?;
        }
        b'c' => {
            let mut bytes = [255; 8];
            print!(rt; "config {} -> ", v[0])?;
            let s = device::read_config(d, v[0], &mut bytes);
            show_answer(rt, s.answer)?;
            println!(rt; " {}", read_u64(&bytes, 0))?;
        }
        b'o' => world.mem = laid(0, v[0], v[1], v[2]),
        _ => return Ok(false),
    }
    Ok(true)
}
