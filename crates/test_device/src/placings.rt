// SPDX-License-Identifier: Apache-2.0 AND BSD-3-Clause
// Making, placing, size changes and the answers to creations: each with its answer and the record then.
use super::world::{Lent, World};
use super::{Line, small};
use making::Mem;
use placing::{place, set_requested_size};
use record::{Device, HostCall};
use refusal::Refusal;
use serving::host_answer;
use std::io;
use step::{Answer, Answered};
use test_support::narrow;
use units::{GuestAddr, HostAddr};

fn yes_no(holds: bool) -> &'static str {
    if holds { "yes" } else { "no" }
}

fn show_answer(rt: &impl Print, answer: Answer) -> io::Result<()> {
    match answer {
        Answer::Refused(number) => print!(rt; "refused {number}"),
        Answer::Wants(HostCall::Create { guest, size, slot }) => {
            print!(rt; "create {} {size} {slot}", guest.0)
        }
        Answer::Wants(HostCall::Discard { .. }) => print!(rt; "discard"),
        Answer::Sized => print!(rt; "sized"),
        Answer::Unserved(_) => print!(rt; "unserved"),
        Answer::Served(_) => print!(rt; "served"),
        Answer::Done => print!(rt; "done"),
    }
}

// The device goes on as it was left. The answer, then the requested and the usable size, the start, and whether the
// device is placed.
fn go_on(rt: &impl Print, world: &mut World, s: Answered) -> io::Result<()> {
    world.device = s.device;
    show_answer(rt, s.answer)?;
    let c = s.device.config;
    let placed = yes_no(s.device.placed);
    println!(rt;
        " {} {} {} {placed}",
        c.requested_size, c.usable_region_size, c.addr.0
    )
}

fn show_made(rt: &impl Print, made: Result<Device, Refusal>) -> io::Result<()> {
    match made {
        Ok(d) => {
            let c = d.config;
            let several = yes_no(d.several);
            print!(rt;
                "new {} {} {} ",
                c.region_size, c.requested_size, d.alignment
            )?;
            println!(rt; "{several} {} {}", d.avail_features, c.node_id)
        }
        Err(refusal) => println!(rt; "new refused {}", refusal.number()),
    }
}

fn show_row(rt: &impl Print, table: &[u64], row: u64) -> io::Result<()> {
    let at = (row % 65536) as usize * 3;
    if let Some(row) = table.get(at..at + 3) {
        println!(rt; "row {} {} {}", row[0], row[1], row[2])?;
    }
    Ok(())
}

// Whether a line is a command.
pub fn call(rt: &impl Print, world: &mut World, line: Line) -> io::Result<bool> {
    let v = line.v;
    let d = world.device;
    let mut mem = world.mem;
    match line.kind {
        b'p' => {
            let Lent {
                bitmap,
                table,
                slots,
                ..
            } = world.lend();
            let Some(slots) = slots.get(..small(v[2])) else {
                return Ok(false);
            };
            let s = place(d, bitmap, table, GuestAddr(v[0]), v[1], slots);
            go_on(rt, world, s)?;
        }
        b'c' => {
            let Lent { bitmap, table, .. } = world.lend();
            let s = host_answer(
                d,
                bitmap,
                table,
                &mut mem,
                GuestAddr(4096),
                v[0] == 1,
                HostAddr(v[1]),
            );
            go_on(rt, world, s)?;
        }
        b's' => {
            let Lent { bitmap, table, .. } = world.lend();
            let s = set_requested_size(d, bitmap, table, v[0]);
            go_on(rt, world, s)?;
        }
        b'n' => {
            let node = (v[3] == 1).then_some(narrow(v[4]));
            show_made(rt, Mem::new(v[0], v[1], v[2] == 1, node, v[5]))?;
        }
        b'r' => show_row(rt, world.table(), v[0])?,
        b'b' => {
            if let Some(byte) = world.bitmap().get(small(v[0])) {
                println!(rt; "byte {byte}")?;
            }
        }
        _ => return Ok(false),
    }
    Ok(true)
}
