// SPDX-License-Identifier: Apache-2.0 AND BSD-3-Clause
// Save records, as a table. Each row of data/save.txt is a call and, behind an arrow, the answer that the rules (R15)
// give, worked out by hand. A row that gets another answer is printed with it, and so is a row that is no call, which
// gets none. What the rows are, and their columns, the file says in its lines that begin with #.
#![tactic(auto)]

use devices::World;
use forms::scan_at;
use little_endian::{copy, from};
use std::num::wrapping_add_usize;
use std::{fs, io};
use test_support::{AnswerRow, form_of, front, run_rows};

mod devices; // a device, saved and restored
mod parts; // parts of a row, and what is lent to a call
mod texts; // texts and old bytes

// Makes a call, by its first letter, and puts its answer: none where it is no call. A text stands behind the numbers
// and a space. The letter is the table's own text, so it is matched as it stands.
fn answer(out: &mut [u8], world: &mut World, form: &str, call: &str) -> usize {
    let call = call.as_bytes();
    let mut v = [0; 17];
    let mut s = [0; 512];
    let Some(at) = scan_at(call, 0, form.as_bytes(), &mut v) else {
        return 0;
    };
    let tail = from(call, wrapping_add_usize(at, 1));
    copy(&mut s, tail);
    parts::swap(&mut s);
    let s = front(&s, tail.len());
    match call.first() {
        Some(b't') => texts::check(out, s),
        Some(b'i') => texts::read(out, v, s),
        Some(b'w') => texts::write(out, v),
        Some(b'l') => texts::length(out, v),
        Some(b'n') => texts::to_new(out, v),
        Some(b'b') => texts::to_old(out, v, s),
        Some(b'd') => world.make(out, v),
        Some(b'r') => world.restore(out, s),
        Some(b'o') => world.trace(out, call),
        Some(b's') => world.save(out, v[0]),
        Some(b'm') => world.measure(out),
        _ => 0,
    }
}

// A run of the table: the devices that its calls make and use, and the forms of its calls, which it has itself.
#[derive(Drop)]
struct Session<'a> {
    world: World,
    text: &'a str,
}

impl<'a> AnswerRow for Session<'a> {
    fn answer(&mut self, out: &mut [u8], call: &str) -> usize {
        let letter = call.as_bytes().first().copied().unwrap_or(0);
        answer(out, &mut self.world, form_of(self.text, letter), call)
    }
}

fn main(rt: HostRuntime) -> io::Result<()> {
    let text = fs::read_to_string(&rt, "save.txt")?;
    let mut session = Session {
        world: World::new(),
        text: &text,
    };
    let count = run_rows(&rt, &text, &mut [0; 512], true, &mut session)?;
    println!(rt; "{count}")
}
