// SPDX-License-Identifier: Apache-2.0 AND BSD-3-Clause
// Values on both sides of the edges, as tables: each line of data/ is a call of a part of the device, and what it
// prints is held to the file stdout, whose lines were worked out by other means than this code.
//
// A line is NAME: COMMAND, or a COMMAND that is its own name. The first letter of a command says what it is, and its
// numbers count; its words are for the reader. A command with a capital says what the calls stand on, and prints
// nothing. A line without a command is printed by its name. A wrong letter shows as a line that stdout has not.
//
// bitmaps.txt asks the bitmap; chains.txt the chain; changes.txt the range test, the plug and unplug decision and the
// state; placings.txt making, placing and size changes; servings.txt requests, discards and the config; values.txt the
// numbers, the record's shape and the usable size.
#![tactic(auto)]

use std::rt::Files;
use std::{fs, io};
use world::World;

mod bitmaps; // bitmaps.txt
mod chains; // chains.txt
mod changes; // changes.txt
mod placings; // placings.txt
mod servings; // servings.txt
mod values; // values.txt
mod world; // what the calls of a file stand on

// A line: its name, and the first letter of its command, 0 where it has none, with its numbers. The letter is the
// table's own text, so the calls of each file match it as it stands.
#[derive(Clone, Copy)]
pub struct Line<'a> {
    name: &'a str,
    kind: u8,
    v: [u64; 8],
}

// A number of the table as a length or an index: none is larger.
fn small(n: u64) -> usize {
    (n % 65536) as usize
}

// The numbers of a command, in their order, and 0 where there are no more. What stands between them is for the reader.
// It stands in test_parts too: shared it would be public, and have a contract that is the grammar of a row.
fn numbers_of(command: &str) -> [u64; 8] {
    let mut v = [0; 8];
    let numbers = command
        .split(|c: char| !c.is_ascii_digit())
        .filter_map(|n| n.parse().ok());
    for (slot, n) in v.iter_mut().zip(numbers) {
        *slot = n;
    }
    v
}

fn line_of(line: &str) -> Line<'_> {
    let (name, command) = line.split_once(':').unwrap_or((line, line));
    let command = command.trim_start();
    Line {
        name,
        kind: command.as_bytes().first().copied().unwrap_or(0),
        v: numbers_of(command),
    }
}

// A file of data/, whose calls stand on a state. Each line is a command, or is printed by its name.
fn run_file<S, F: FnMut(&mut S, Line) -> io::Result<bool>>(
    rt: &(impl Files + Print + Alloc),
    name: &str,
    state: &mut S,
    mut command: F,
) -> io::Result<()>
    requires { (f : _) (state : _) (line : _) → F.pre f state line }
{
    let text = fs::read_to_string(rt, name)?;
    for line in text.lines() {
        let line = line_of(line);
        if !command(state, line)? {
            println!(rt; "{}", line.name)?;
        }
    }
    Ok(())
}

// A file whose calls stand on a world.
fn run_calls<F: FnMut(&mut World, Line) -> io::Result<bool>>(
    rt: &(impl Files + Print + Alloc),
    name: &str,
    mut call: F,
) -> io::Result<()>
    requires { (f : _) (world : _) (line : _) → F.pre f world line }
{
    run_file(rt, name, &mut World::new(), |world, line| {
        if line.kind < b'a' {
            Ok(world.set(line))
        } else {
            call(world, line)
        }
    })
}

fn main(rt: HostRuntime) -> io::Result<()> {
    run_calls(
        &rt,
        "bitmaps.txt",
        |world, line| bitmaps::call(&rt, world, line),
    )?;
    run_file(
        &rt,
        "chains.txt",
        &mut [0; 2082],
        |mem, line| chains::command(&rt, mem, line),
    )?;
    run_calls(
        &rt,
        "changes.txt",
        |world, line| changes::call(&rt, world, line),
    )?;
    run_calls(
        &rt,
        "placings.txt",
        |world, line| placings::call(&rt, world, line),
    )?;
    run_calls(
        &rt,
        "servings.txt",
        |world, line| servings::call(&rt, world, line),
    )?;
    run_calls(
        &rt,
        "values.txt",
        |world, line| values::call(&rt, world, line),
    )
}
