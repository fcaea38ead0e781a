// SPDX-License-Identifier: Apache-2.0 AND BSD-3-Clause
// The tests (b), (c) and (d), and the state of a range.
use super::Line;
use super::world::{Lent, World};
use change::{Area, Blocks, Change, Reason, host_of, why_number};
use std::io;
use test_support::narrow;
use units::{GuestAddr, MemTool, RegionOffset};

// So many bytes from a start on.
fn area(start: u64, size: u64) -> Area {
    Area {
        start: GuestAddr(start),
        size,
        block_size: MemTool::BLOCK_SIZE as u32,
    }
}

// So many blocks from an address on.
fn asked(addr: u64, blocks: u64) -> Blocks {
    Blocks {
        addr: GuestAddr(addr),
        nb_blocks: narrow(blocks),
    }
}

fn name_of(reason: Reason) -> &'static str {
    match reason {
        Reason::Alignment => "misaligned",
        Reason::ZeroBlocks => "no blocks",
        Reason::Overflow => "overflows",
        Reason::BelowStart => "below start",
        Reason::PastUsable => "past usable",
        Reason::EndPastUsable => "end past usable",
        Reason::WrongState => "wrong state",
        Reason::CrossesBorder => "crosses border",
        Reason::Unmapped => "unmapped",
        Reason::SumPasses => "sum passes",
        Reason::FailedDiscard => "failed discard",
    }
}

// Why a test failed, if it did, and the number of that.
fn show_why(rt: &impl Print, why: Option<Reason>) -> io::Result<()> {
    if let Some(reason) = why {
        print!(rt; ": {}", name_of(reason))?;
    }
    println!(rt; ", why {}", why_number(why))
}

// Changes and states are of a device at 4 GiB; of a change 8 GiB are usable.
pub fn call(rt: &impl Print, world: &mut World, line: Line) -> io::Result<bool> {
    let v = line.v;
    let start = 4294967296;
    let Lent { bitmap, table, .. } = world.lend();
    print!(rt; "{}", line.name)?;
    match line.kind {
        b'r' => {
            let range = area(v[0], v[1]).range_of(asked(v[2], v[3]));
            if let Ok(offset) = range {
                print!(rt; ": inside {}", offset.0)?;
            }
            show_why(rt, range.err())?;
        }
        b'h' => {
            let host = host_of(v[0] == 1, table, RegionOffset(v[1]), v[2]);
            if let Ok(at) = host {
                print!(rt; ": host {}", at.0)?;
            }
            show_why(rt, host.err())?;
        }
        b'c' => {
            let usable = area(start, 8589934592);
            let change = usable.change_of(v[1] == 1, asked(v[2], v[3]), v[0] == 1, bitmap, table);
            if let Ok(
                Change {
                    first,
                    offset,
                    host,
                },
            ) = change
            {
                print!(rt; ": legal block {first} offset {} host {}", offset.0, host.0)?;
            }
            show_why(rt, change.err())?;
        }
        b's' => {
            let state = area(start, v[0]).state_of(asked(v[1], v[2]), bitmap);
            println!(rt; ": state {state}")?;
        }
        _ => println!(rt; ": no command")?,
    }
    Ok(true)
}
