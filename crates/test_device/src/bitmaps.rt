// SPDX-License-Identifier: Apache-2.0 AND BSD-3-Clause
// The bitmap: calls on three bytes and on those that are lent, and sweeps over the counts 0 to 24 of the ranges from
// one block on.
use super::world::World;
use super::{Line, small};
use std::io;

const LAST: usize = 18446744073709551615;

fn byte(n: u64) -> u8 {
    (n % 256) as u8
}

fn show_bytes(rt: &impl Print, bytes: &[u8]) -> io::Result<()> {
    print!(rt; " ")?;
    for byte in bytes {
        print!(rt; "{byte:02x}")?;
    }
    Ok(())
}

fn show_found(rt: &impl Print, found: Option<usize>) -> io::Result<()> {
    match found {
        Some(block) => print!(rt; " {block}"),
        None => print!(rt; " nothing"),
    }
}

// The state of a range: 1 all plugged, 0 all unplugged, - neither, = both, which is no block.
fn state(bitmap: &[u8], first: usize, count: usize) -> char {
    let plugged = bitmap::all_in_state(bitmap, first, count, true);
    let unplugged = bitmap::all_in_state(bitmap, first, count, false);
    match (plugged, unplugged) {
        (true, true) => '=',
        (true, false) => '1',
        (false, true) => '0',
        (false, false) => '-',
    }
}

// The states of the counts 0 to 24, in five bytes of one value, of which some are lent.
fn sweep_states(rt: &impl Print, value: u8, lent: usize, first: usize) -> io::Result<()> {
    let bytes = [value; 5];
    print!(rt; " ")?;
    if let Some(lent) = bytes.get(..lent) {
        for count in 0..25 {
            print!(rt; "{}", state(lent, first, count))?;
        }
    }
    Ok(())
}

// The five bytes after each of the counts is put: those that are not lent are to stay.
fn sweep_bytes(
    rt: &impl Print,
    value: u8,
    lent: usize,
    first: usize,
    plugged: bool,
) -> io::Result<()> {
    for count in 0..25 {
        let mut bytes = [value; 5];
        if let Some(lent) = bytes.get_mut(..lent) {
            bitmap::set_range(lent, first, count, plugged);
        }
        show_bytes(rt, &bytes)?;
    }
    Ok(())
}

// What each reading function says of one range.
fn read(rt: &impl Print, bytes: &[u8], first: usize, count: usize) -> io::Result<()> {
    let name = if bitmap::is_set(bytes, first) {
        "plugged"
    } else {
        "unplugged"
    };
    let plugged = bitmap::count_set(bytes, first, count);
    print!(rt; " {name} {} {plugged}", state(bytes, first, count))
}

// Puts a range of the lent bytes, and tells how many blocks are plugged then, the lowest, and the lowest from another
// on.
fn put(
    rt: &impl Print,
    bitmap: &mut [u8],
    first: usize,
    count: usize,
    plugged: bool,
    from: usize,
) -> io::Result<()> {
    bitmap::set_range(bitmap, first, count, plugged);
    print!(rt; " {}", bitmap::count_set(bitmap, 0, LAST))?;
    show_found(rt, bitmap::next_set(bitmap, 0, LAST))?;
    show_found(rt, bitmap::next_set(bitmap, from, LAST))
}

pub fn call(rt: &impl Print, world: &mut World, line: Line) -> io::Result<bool> {
    let v = line.v;
    let first = v[0] as usize;
    let count = v[1] as usize;
    print!(rt; "{}:", line.name)?;
    match line.kind {
        b's' => {
            let mut bytes = [byte(v[3]), byte(v[4]), byte(v[5])];
            bitmap::set_range(&mut bytes, first, count, v[2] == 1);
            show_bytes(rt, &bytes)?;
        }
        b'r' => read(rt, &[byte(v[2]), byte(v[3]), byte(v[4])], first, count)?,
        b'n' => {
            let bytes = [byte(v[2]), byte(v[3]), byte(v[4])];
            show_found(rt, bitmap::next_set(&bytes, first, count))?;
        }
        b't' => sweep_states(rt, byte(v[0]), small(v[1]), v[2] as usize)?,
        b'f' => sweep_bytes(rt, byte(v[0]), small(v[1]), v[2] as usize, v[3] == 1)?,
        b'a' => print!(rt; " {}", state(world.bitmap(), first, count))?,
        b'p' => put(rt, world.bitmap(), first, count, v[2] == 1, v[3] as usize)?,
        _ => print!(rt; " no command")?,
    }
    println!(rt)?;
    Ok(true)
}
