// SPDX-License-Identifier: Apache-2.0 AND BSD-3-Clause
// The guest's side and its planner, as a table. Each row of data/driver.txt is a call and, behind an arrow, the answer
// that the rules (R14) give. A row that gets another answer is printed with it, and so is a row that is no call,
// which gets none. What the rows are, and their columns, the file says in its lines that begin with #.
#![tactic(auto)]

use bitmap::{count_set, set_range};
use driver::Plug;
use forms::{put_form, scan};
use refusal::Refusal;
use std::num::wrapping_add_u64;
use std::{fs, io};
use test_support::{AnswerRow, front, narrow, run_rows};
use units::{GuestAddr, MemTool};
use wire::{VirtioMemConfig, VirtioMemReq};

// The numbers of a row, in their order, and 0 where there are no more.
type Row = [u64; 59];

// The bytes of a row, behind the number of those that are lent.
fn bytes_of(v: Row) -> [u8; 58] {
    let mut bytes = [0; 58];
    for (byte, n) in bytes.iter_mut().zip(&v[1..]) {
        *byte = (n % 256) as u8;
    }
    bytes
}

fn refused(out: &mut [u8], refusal: Refusal) -> usize {
    put_form(out, b"refuse=#", &[refusal.number()])
}

fn write_request(out: &mut [u8], v: Row) -> usize {
    let mut bytes = [238u8; 26];
    let lent = v[0] as usize;
    let req = VirtioMemReq {
        req_type: narrow(v[1]),
        addr: GuestAddr(v[2]),
        nb_blocks: narrow(v[3]),
    };
    if 26 < lent {
        return 0;
    }
    let mut shown = [refusal::code(driver::write_request(&mut bytes[..lent], req)); 27];
    for (n, byte) in shown[1..].iter_mut().zip(bytes) {
        *n = byte as u64;
    }
    put_form(
        out,
        b"# bytes # # # # # # # # | # # # # # # # # | # # # # # # # # | # #",
        &shown,
    )
}

fn read_response(out: &mut [u8], v: Row) -> usize {
    let bytes = bytes_of(v);
    match driver::read_response(front(&bytes, v[0] as usize)) {
        Ok(r) => {
            put_form(
                out,
                b"type=# state=#",
                &[r.resp_type as u64, r.state as u64],
            )
        }
        Err(refusal) => refused(out, refusal),
    }
}

fn read_config(out: &mut [u8], v: Row) -> usize {
    let bytes = bytes_of(v);
    match driver::read_config(front(&bytes, v[0] as usize)) {
        Ok(c) => {
            let fields = [
                c.block_size,
                c.node_id as u64,
                c.addr.0,
                c.region_size,
                c.usable_region_size,
                c.plugged_size,
                c.requested_size,
            ];
            put_form(
                out,
                b"block=# node=# start=# region=# usable=# plugged=# requested=#",
                &fields,
            )
        }
        Err(refusal) => refused(out, refusal),
    }
}

fn config_of(v: Row) -> VirtioMemConfig {
    VirtioMemConfig {
        block_size: v[0],
        node_id: 7,
        addr: GuestAddr(v[1]),
        region_size: v[2],
        usable_region_size: v[3],
        plugged_size: v[4],
        requested_size: v[5],
    }
}

// The three runs of plugged blocks.
fn lay(bitmap: &mut [u8], v: Row) {
    for (first, count) in [(v[7], v[8]), (v[9], v[10]), (v[11], v[12])] {
        set_range(bitmap, first as usize, count as usize, true);
    }
}

fn plan(out: &mut [u8], v: Row) -> usize {
    let mut bitmap = [0u8; 32776];
    lay(&mut bitmap, v);
    match driver::plan(config_of(v), front(&bitmap, v[6] as usize)) {
        Ok(Plug { addr, nb_blocks }) => {
            put_form(out, b"plug addr=# blocks=#", &[addr.0, nb_blocks as u64])
        }
        Err(refusal) => refused(out, refusal),
    }
}

// Plans, and plugs what is proposed; or the refusal.
fn plug(c: VirtioMemConfig, bitmap: &mut [u8], lent: usize) -> Result<VirtioMemConfig, Refusal> {
    let Plug { addr, nb_blocks } = driver::plan(c, front(bitmap, lent))?;
    let first = MemTool::blocks_in(addr.offset_from(c.addr).0, c.block_size);
    let plugged = MemTool::bytes_of(nb_blocks, (c.block_size % 4294967296) as u32);
    set_range(bitmap, first as usize, nb_blocks as usize, true);
    Ok(VirtioMemConfig {
        plugged_size: wrapping_add_u64(c.plugged_size, plugged),
        ..c
    })
}

// Plans and plugs until a refusal; no answer where there is none after 1000 plugs.
fn drive(out: &mut [u8], v: Row) -> usize {
    let mut bitmap = [0u8; 32776];
    lay(&mut bitmap, v);
    let mut config = config_of(v);
    for plugs in 0..1000 {
        match plug(config, &mut bitmap, v[6] as usize) {
            Ok(plugged) => config = plugged,
            Err(refusal) => {
                let set = count_set(&bitmap, 0, 262144) as u64;
                return put_form(
                    out,
                    b"plugs=# plugged=# set=# refuse=#",
                    &[plugs, config.plugged_size, set, refusal.number()],
                );
            }
        }
    }
    0
}

const WRITE: &[u8] = b"write lent=# type=# addr=# blocks=#";

const RESPONSE: &[u8] = b"response lent=# bytes # # # # # # # # | # # | # #";

const CONFIG: &[u8] =
    b"config lent=# bytes # # # # # # # # | # # # # # # # # | # # # # # # # # | # # # # # # # # \
    | # # # # # # # # | # # # # # # # # | # # # # # # # # | # #";

const PLAN: &[u8] =
    b"plan block=# start=# region=# usable=# plugged=# requested=# lent=# set=#+#,#+#,#+#";

const DRIVE: &[u8] =
    b"drive block=# start=# region=# usable=# plugged=# requested=# lent=# set=#+#,#+#,#+#";

// Puts the answer, and gives its length: 0 where a row is no call.
fn answer(out: &mut [u8], call: &str) -> usize {
    let call = call.as_bytes();
    let mut v = [0; 59];
    if scan(call, WRITE, &mut v) {
        write_request(out, v)
    } else if scan(call, RESPONSE, &mut v) {
        read_response(out, v)
    } else if scan(call, CONFIG, &mut v) {
        read_config(out, v)
    } else if scan(call, PLAN, &mut v) {
        plan(out, v)
    } else if scan(call, DRIVE, &mut v) {
        drive(out, v)
    } else {
        0
    }
}

// The calls of the table; none needs what an earlier one left.
#[derive(Drop)]
struct Calls;

impl AnswerRow for Calls {
    fn answer(&mut self, out: &mut [u8], call: &str) -> usize {
        answer(out, call)
    }
}

fn main(rt: HostRuntime) -> io::Result<()> {
    let text = fs::read_to_string(&rt, "driver.txt")?;
    let count = run_rows(&rt, &text, &mut [0; 256], true, &mut Calls)?;
    println!(rt; "{count}")
}
