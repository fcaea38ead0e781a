// SPDX-License-Identifier: Apache-2.0 AND BSD-3-Clause
// Raw descriptors, and what the chain makes of them, by itself and through a reader that holds the memory.
use super::{Line, small};
use chain::Asked;
use chain_reader::{parse_chain, second_link};
use little_endian::{write_u16, write_u32, write_u64};
use std::io;
use test_support::{front, narrow};
use units::GuestAddr;
use wire::VirtioMemResp;

// Where the memory and its table are for a reader.
const START: GuestAddr = GuestAddr(4096);

// Writes a descriptor from byte `at` on.
fn lay(mem: &mut [u8], at: u16, addr: u64, len: u64, flags: u64, next: u64) {
    let at = at as usize;
    write_u64(mem, at, addr);
    write_u32(mem, at + 8, (len % 4294967296) as u32);
    write_u16(mem, at + 12, narrow(flags));
    write_u16(mem, at + 14, narrow(next));
}

// Writes a request of 24 bytes from byte `at` on; each byte that is ignored is 170.
fn lay_request(mem: &mut [u8], at: u16) {
    let at = at as usize;
    write_u64(mem, at, 12297829382473034410);
    write_u64(mem, at + 16, 12297829382473034410);
    write_u16(mem, at, 1);
    write_u64(mem, at + 8, 81985529216486895);
    write_u16(mem, at + 16, 513);
}

// Parses, and writes the request or the reason.
fn parse(rt: &impl Print, mem: &[u8], base: u64, table: u64, head: u64) -> io::Result<()> {
    match chain::parse(mem, GuestAddr(base), GuestAddr(table), narrow(head)) {
        Ok(Asked { request, status }) => {
            println!(rt;
                ": type={} addr={} blocks={} status={}",
                request.req_type, request.addr.0, request.nb_blocks, status.0
            )
        }
        Err(reason) => println!(rt; ": reason={}", reason.number()),
    }
}

// Where `size` bytes lie in the memory.
fn place(rt: &impl Print, mem: &[u8], base: u64, addr: u64, size: u64) -> io::Result<()> {
    match descriptors::place_of(mem, GuestAddr(base), GuestAddr(addr), size) {
        Some(at) => println!(rt; ": at={at}"),
        None => println!(rt; ": outside"),
    }
}

// Delivers a response into 12 bytes of 7, and writes them all.
fn deliver(rt: &impl Print, base: u64, status: u64) -> io::Result<()> {
    let mut mem = [7; 12];
    let resp = VirtioMemResp {
        resp_type: 259,
        state: 513,
    };
    if chain::deliver(&mut mem, GuestAddr(base), GuestAddr(status), resp) {
        print!(rt; ": done")?;
    } else {
        print!(rt; ": not inside")?;
    }
    for byte in mem {
        print!(rt; " {byte}")?;
    }
    println!(rt)
}

// The request or the reason, and the second descriptor, by a reader that holds the memory.
fn read(rt: &impl Print, mem: &[u8], head: u16) -> io::Result<()> {
    match parse_chain(mem, START, START, head) {
        Ok(Asked { request, status }) => {
            print!(rt;
                "head {head} type {} addr {} blocks {} status {}",
                request.req_type, request.addr.0, request.nb_blocks, status.0
            )?;
        }
        Err(reason) => print!(rt; "head {head} reason {}", reason.number())?,
    }
    match second_link(mem, START, START, head) {
        Some(second) => println!(rt; ", second at {}", second.addr.0),
        None => println!(rt; ", no second"),
    }
}

// Whether a line is a command.
pub fn command(rt: &impl Print, mem: &mut [u8], line: Line) -> io::Result<bool> {
    let v = line.v;
    match line.kind {
        b'L' => lay(mem, narrow(v[0]), v[1], v[2], v[3], v[4]),
        b'R' => lay_request(mem, narrow(v[0])),
        b'W' => write_u64(mem, small(v[0]), v[1]),
        b'c' => {
            print!(rt; "{}", line.name)?;
            parse(rt, front(mem, small(v[0])), v[1], v[2], v[3])?;
        }
        b'p' => {
            print!(rt; "{}", line.name)?;
            place(rt, front(mem, small(v[0])), v[1], v[2], v[3])?;
        }
        b'd' => {
            print!(rt; "{}", line.name)?;
            deliver(rt, v[0], v[1])?;
        }
        b'r' => read(rt, front(mem, small(v[0])), narrow(v[1]))?,
        _ => return Ok(false),
    }
    Ok(true)
}
