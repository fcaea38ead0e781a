// SPDX-License-Identifier: Apache-2.0 AND BSD-3-Clause
// wire.txt: numbers, requests, responses and the config as bytes.
use super::{Row, numbers_of};
use forms::put_form;
use test_support::{front, narrow};
use units::GuestAddr;
use wire::{VirtioMemConfig, VirtioMemResp};

fn put_bytes(out: &mut [u8], bytes: &[u8]) -> usize {
    let mut to = put_form(out, b"bytes=", &[]);
    for b in bytes {
        for digit in [b / 16, b % 16] {
            to = text::put(out, to, b"0123456789abcdef"[digit as usize]);
        }
    }
    to
}

fn numbers(out: &mut [u8], lent: &[u8], at: usize) -> usize {
    let two = little_endian::read_u16(lent, at) as u64;
    let four = little_endian::read_u32(lent, at) as u64;
    let eight = little_endian::read_u64(lent, at);
    put_form(out, b"u16=# u32=# u64=#", &[two, four, eight])
}

fn request(out: &mut [u8], lent: &[u8], at: usize) -> usize {
    let r = wire::read_request(lent, at);
    put_form(
        out,
        b"type=# addr=# blocks=#",
        &[r.req_type as u64, r.addr.0, r.nb_blocks as u64],
    )
}

// What is read at a place of the first bytes of a row, which stand behind the number of those that are lent and the
// place.
fn read<F: Fn(&mut [u8], &[u8], usize) -> usize>(out: &mut [u8], v: Row, answer: F) -> usize
    requires { F.IsAlwaysCallable answer }
{
    let mut bytes = [0; 32];
    for (byte, n) in bytes.iter_mut().zip(&v[2..]) {
        *byte = (n % 256) as u8;
    }
    answer(out, front(&bytes, v[0] as usize), v[1] as usize)
}

fn field(out: &mut [u8], k: usize) -> usize {
    let f = wire::config_fields()[k % 8];
    put_form(out, b"offset=# width=#", &[f.0 as u64, f.1 as u64])
}

fn write_number(bytes: &mut [u8], at: usize, width: u64, n: u64) {
    match width {
        2 => little_endian::write_u16(bytes, at, narrow(n)),
        4 => little_endian::write_u32(bytes, at, (n % 4294967296) as u32),
        _ => little_endian::write_u64(bytes, at, n),
    }
}

// The config whose bytes are each one more than their places.
fn counting() -> VirtioMemConfig {
    VirtioMemConfig {
        block_size: 578437695752307201,
        node_id: 2569,
        addr: GuestAddr(1735880461161533969),
        region_size: 2314601843866147353,
        usable_region_size: 2893323226570760737,
        plugged_size: 3472044609275374121,
        requested_size: 4050765991979987505,
    }
}

// What a call writes into so many bytes.
fn written<F: FnOnce(&mut [u8])>(out: &mut [u8], lent: u64, write: F) -> usize
    requires { F.IsAlwaysCallable write }
{
    let mut bytes = [238; 64];
    let lent = lent as usize;
    if 64 < lent {
        return 0;
    }
    write(&mut bytes[..lent]);
    put_bytes(out, &bytes[..lent])
}

pub fn answer(out: &mut [u8], call: &str) -> usize {
    let v = numbers_of(call);
    let at = v[1] as usize;
    // A call's first letter is the table's own text, so it is matched as it stands.
    match call.as_bytes().first() {
        Some(b'f') => field(out, v[0] as usize),
        Some(b'n') => read(out, v, numbers),
        Some(b'r') => read(out, v, request),
        Some(b'c') => written(
            out,
            v[0],
            |bytes| wire::read_config(counting(), v[1], bytes),
        ),
        Some(b'm') => {
            let config = VirtioMemConfig::new(v[2], narrow(v[3]), v[4], v[5]);
            written(out, v[0], |bytes| wire::read_config(config, v[1], bytes))
        }
        Some(b'p') => {
            let resp = VirtioMemResp {
                resp_type: narrow(v[2]),
                state: narrow(v[3]),
            };
            written(out, v[0], |bytes| wire::write_response(bytes, at, resp))
        }
        Some(b'w') => written(out, v[0], |bytes| write_number(bytes, at, v[2], v[3])),
        _ => 0,
    }
}
