// SPDX-License-Identifier: Apache-2.0 AND BSD-3-Clause
// Calls on the queue, as a table. Each row of data/queue.txt is a command and, behind an arrow, the answer that
// the rules (R13) give, worked out by hand. A row that gets another answer is printed with it, and so is a row that
// is no command. A line with a colon is a heading. The first lines are forms, each behind its key: of a command, its
// first letter, or of an answer.
//
// A command with a capital says what the calls stand on, and has no answer. `serve` takes the next head, and `host` is
// the host's answer; `taking` and `answering` are the same with faults, and `make` is many requests; the others look at
// what a call left. A call that is refused, or finds no head, is to change nothing of the record, the queue, the
// blocks, the map table's row and the memory, or its answer is `changed`. What any other call writes into the memory
// has to be looked at before the next: a byte that no row looked at is printed too.
#![tactic(auto)]

use calls::Call;
use guest::rest_of;
use std::{fs, io};
use test_support::{Count, form_of, front};
use world::{Numbers, Told, World, taken_of};

mod calls; // the calls
mod faults; // calls with faults
mod guest; // what the guest writes
mod looks; // looks at what a call left
mod memory; // the memory, and what was seen of it
mod run; // many requests, one after the other
mod show; // what is told
mod world; // what the calls stand on

// A command by its first letter, which is the table's own text, so it is matched as it stands.
fn command(world: &mut World, letter: u8, v: Numbers) {
    match letter {
        b'B' => little_endian::write_u64(&mut world.bitmap, 0, v[0]),
        b'C' => world.put_chain(v),
        b'D' => world.set_device(v),
        b'F' => *world = World::fresh(),
        b'H' => world.queue.taken = taken_of(v[0]),
        b'L' => world.put_link(v[0], v[1], rest_of(v[2], v[3], v[4])),
        b'M' => world.lend_memory(v[0], v[1], v[2]),
        b'N' => world.set_next(v[0], v[1]),
        b'O' => world.offer(v[0], v[1], v[2]),
        b'P' => world.set_pending(v),
        b'Q' => world.set_rings(v),
        b'R' => world.table = [v[0], v[1], v[2]],
        b'T' => world.lend_tables(v[0], v[1]),
        b'W' => world.memory.put_u16(v[0], v[1]),
        b's' => world.make(Call::Serve),
        b'h' => {
            world.make(Call::Host {
                ok: v[0] == 1,
                addr: v[1],
            })
        }
        b't' => *world = faults::take(v),
        b'a' => *world = faults::answer(v),
        b'm' => world.many(v[0]),
        b'e' => world.told = Told::Element(world.used_element(v[0])),
        b'i' => world.told = Told::Number(world.used_index()),
        b'r' => world.told = world.response(v[0]),
        _ => world.told = Told::Number(world.memory.get_u16(v[0])),
    }
}

// Whether a command with this letter only looks.
fn is_look(letter: u8) -> bool {
    matches!(letter, b'e' | b'i' | b'r' | b'w')
}

// Whether a call wrote what no row has looked at, and the next row is no look: then the first eight bytes are shown.
fn unseen(rt: &impl Print, line: u64, letter: u8, world: &World) -> io::Result<bool> {
    if is_look(letter) {
        return Ok(false);
    }
    let Some(at) = world.memory.first_unseen() else {
        return Ok(false);
    };
    println!(rt; "before line {line} no row looked at the bytes from {at}")?;
    Ok(true)
}

// A row that has not what came of it.
// It stands in test_support too: shared it would be public, and no contract says what is printed.
fn show_row(rt: &impl Print, line: u64, row: &str, given: &[u8]) -> io::Result<()> {
    print!(rt; "line {line}: {row}\n  but got ")?;
    rt.write_all(given)?;
    println!(rt)
}

// Whether a row's answer is not what was told: then the row is shown.
fn differs(
    rt: &impl Print,
    world: &World,
    text: &str,
    line: u64,
    row: &str,
    known: &str,
) -> io::Result<bool> {
    let mut out = [0; 256];
    let length = world.put_told(&mut out, text);
    let given = front(&out, length);
    if known.as_bytes() == given {
        return Ok(false);
    }
    show_row(rt, line, row, given)?;
    Ok(true)
}

// A row: a command, and what is known of its answer. One that begins with a capital has no answer, and is a command as
// a whole.
fn run_row(
    rt: &impl Print,
    world: &mut World,
    text: &str,
    line: u64,
    row: &str,
) -> io::Result<Count> {
    let letter = row.as_bytes().first().copied().unwrap_or(0);
    let (call, known) = row.split_once(" -> ").unwrap_or((row, ""));
    let missed = unseen(rt, line, letter, world)?;
    let mut v = [0; 6];
    if !forms::scan(call.as_bytes(), form_of(text, letter).as_bytes(), &mut v) {
        show_row(rt, line, row, b"no command")?;
        return Ok(Count {
            rows: 0,
            differing: 1,
        });
    }
    command(world, letter, v);
    if letter < b'a' {
        return Ok(Count {
            rows: 0,
            differing: missed as u64,
        });
    }
    let wrong = differs(rt, world, text, line, row, known)?;
    Ok(Count {
        rows: 1,
        differing: missed as u64 + wrong as u64,
    })
}

fn run_lines(rt: &impl Print, text: &str) -> io::Result<Count> {
    let mut world = World::fresh();
    let mut count = Count::default();
    let mut last = 0;
    for (line, row) in (1..=u64::MAX).zip(text.lines()) {
        last = line;
        if row.contains(':') || row.get(1..2) == Some(" ") {
            continue;
        }
        count.add(run_row(rt, &mut world, text, line, row)?);
    }
    let missed = unseen(rt, last, b'F', &world)?;
    count.add(Count {
        rows: 0,
        differing: missed as u64,
    });
    Ok(count)
}

fn main(rt: HostRuntime) -> io::Result<()> {
    let text = fs::read_to_string(&rt, "queue.txt")?;
    let count = run_lines(&rt, &text)?;
    println!(rt; "{count}")
}
