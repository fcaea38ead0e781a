// SPDX-License-Identifier: Apache-2.0 AND BSD-3-Clause
// The wire, the map table and the texts of a trace at their limits, as tables. Each row of data/ is a call and, behind
// an arrow, its answer; a row that gets another is printed with it. The first letter of a call says what it is, and its
// numbers count; its words are for the reader. What the rows are, and their columns, each file says in its lines that
// begin with #.
#![tactic(auto)]

use std::{fs, io};
use test_support::{AnswerRow, run_rows};

mod tables; // rows.txt
mod texts; // texts.txt
mod wires; // wire.txt

// The numbers of a row, in their order, and 0 where there are no more.
type Row = [u64; 34];

// What stands between the numbers of a call is for the reader.
// It stands in test_device too: shared it would be public, and have a contract that is the grammar of a row.
fn numbers_of(call: &str) -> Row {
    let mut v = [0; 34];
    let numbers = call
        .split(|c: char| !c.is_ascii_digit())
        .filter_map(|n| n.parse().ok());
    for (slot, n) in v.iter_mut().zip(numbers) {
        *slot = n;
    }
    v
}

// The tables, by their files.
#[derive(Clone, Copy)]
enum Table {
    Wire,
    Rows,
    Texts,
}

impl Table {
    fn file(self) -> &'static str {
        match self {
            Table::Wire => "wire.txt",
            Table::Rows => "rows.txt",
            Table::Texts => "texts.txt",
        }
    }
}

impl AnswerRow for Table {
    fn answer(&mut self, out: &mut [u8], call: &str) -> usize {
        match self {
            Table::Wire => wires::answer(out, call),
            Table::Rows => tables::answer(out, call),
            Table::Texts => texts::answer(out, call),
        }
    }
}

fn main(rt: HostRuntime) -> io::Result<()> {
    for mut table in [Table::Wire, Table::Rows, Table::Texts] {
        let text = fs::read_to_string(&rt, table.file())?;
        let count = run_rows(&rt, &text, &mut [0; 256], false, &mut table)?;
        println!(rt; "{count}")?;
    }
    Ok(())
}
