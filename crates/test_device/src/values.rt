// SPDX-License-Identifier: Apache-2.0 AND BSD-3-Clause
// The numbers of the device at their limits, the shape of a record, and the usable size with its creation: a name and
// what comes of it.
use super::Line;
use super::world::World;
use resize::{grown_size, growth_of, new_size};
use std::io;
use test_support::narrow;
use units::{GuestAddr, HostAddr, MemTool, RegionOffset};

// A call that stands on numbers alone.
fn number_of(kind: u8, v: [u64; 8]) -> u64 {
    match kind {
        b'a' => units::alignment_of(v[0]),
        b'u' => units::next_multiple_of(v[0], v[1]),
        b'm' => units::map_regions(v[0], v[1] == 1),
        b's' => units::sum_within(v[0], v[1], v[2]) as u64,
        b'p' => units::product_within(v[0], v[1], v[2]) as u64,
        b'l' => v[0].min(v[1]),
        b'z' => new_size(v[0], v[1], v[2], MemTool::BLOCK_SIZE),
        b'n' => grown_size(v[0], v[1]),
        b'o' => GuestAddr(v[0]).offset_from(GuestAddr(v[1])).0,
        b'g' => RegionOffset(v[0]).guest_from(GuestAddr(v[1])).0,
        b'h' => RegionOffset(v[0]).host_from(HostAddr(v[1])).0,
        b'r' => RegionOffset(v[0]).map_region(),
        b'i' => RegionOffset(v[0]).in_map_region().0,
        b'b' => MemTool::bytes_of(narrow(v[0]), MemTool::BLOCK_SIZE as u32),
        _ => MemTool::blocks_in(v[0], MemTool::BLOCK_SIZE),
    }
}

// A line without a name goes on with the next.
pub fn call(rt: &impl Print, world: &mut World, line: Line) -> io::Result<bool> {
    let v = line.v;
    let d = world.device;
    print!(rt; "{}", line.name)?;
    match line.kind {
        b'w' => match growth_of(v[0], v[1] == 1, v[2], v[3], world.table()) {
            Some(c) => print!(rt; " {} {} {}", c.first, c.last, c.size)?,
            None => print!(rt; " settled")?,
        },
        b'd' => print!(rt; " {}", record::shaped(d) as u64)?,
        b'e' => print!(rt; " {}", record::is_idle(d.pending) as u64)?,
        b'f' => print!(rt; " {}", record::features(v[0] == 1))?,
        kind => print!(rt; " {}", number_of(kind, v))?,
    }
    if !line.name.is_empty() {
        println!(rt)?;
    }
    Ok(true)
}
