// SPDX-License-Identifier: Apache-2.0 AND BSD-3-Clause
// What the tests share: tables, whose rows are a call and, behind an arrow, its known answer.
#![tactic(auto)]

ghost use Rattle.std.specs.Prelude.{◌≡◌, ◌+◌, ◌-◌, ◌^◌, ◌%◌, ◌≤◌, min, take, length, IfOk};

use std::{fmt, io};

// How many rows there were, and how many of these differ.
#[derive(Clone, Copy, Default)]
pub struct Count {
    pub rows: u64,
    pub differing: u64,
}

impl Count {
    pub fn add(&mut self, more: Count)
        ensures rows { self.new.rows ≡ min (self.old.rows + more.rows) (2 ^ 64 - 1) }
        ensures differing { self.new.differing ≡ min (self.old.differing + more.differing) (2 ^ 64 - 1) }
    {
        self.rows = self.rows.saturating_add(more.rows);
        self.differing = self.differing.saturating_add(more.differing);
    }

    // Counts a row.
    fn add_row(&mut self, differs: bool)
        ensures rows { self.new.rows ≡ min (self.old.rows + 1) (2 ^ 64 - 1) }
        ensures differing { self.old.differing ≤ self.old.rows → self.new.differing ≤ self.new.rows }
    {
        self.add(Count {
            rows: 1,
            differing: differs as u64,
        });
    }
}

impl fmt::Display for Count {
    fn fmt<W: fmt::Write>(&self, f: &mut fmt::Formatter<W>) -> fmt::Result {
        write!(f, "{} rows, {} differ", self.rows, self.differing)
    }
}

// A number of a table in two bytes.
pub fn narrow(n: u64) -> u16
    ensures { result ≡ n % 65536 }
{
    (n % 65536) as u16
}

// The first bytes, where there are so many.
pub fn front(s: &[u8], count: usize) -> &[u8]
    ensures { result.now ≡ take count s.now }
{
    s.get(..count).unwrap_or(s)
}

// The form that stands behind a key and a blank at the start of a line, or nothing.
pub fn form_of(text: &str, key: u8) -> &str
    ensures { length result.now ≤ length text.now }
{
    let line = text
        .lines()
        .find(|line| line.as_bytes().first() == Some(&key));
    match line.and_then(|line| line.get(2..)) {
        Some(form) => form,
        None => "",
    }
}

// A row that has not what came of it, behind the number of its line, if one is given.
fn show(rt: &impl Print, line: Option<u64>, row: &str, given: &[u8]) -> io::Result<()> {
    if let Some(line) = line {
        print!(rt; "line {line}: ")?;
    }
    print!(rt; "{row}\n  but got ")?;
    rt.write_all(given)?;
    println!(rt)
}

// Who answers the rows of a table. It is a trait, since a closure that is passed in would have to be asked for by a
// `requires`.
pub trait AnswerRow {
    // Puts the answer to a call at the start of a buffer, and says how long it is: 0 where there is none.
    fn answer(&mut self, out: &mut [u8], call: &str) -> usize;
}

// Runs each row of a table, shows those that have another answer, or none, which is an empty one, and counts. A line
// that is empty, begins with # or is a form, behind a key, is no row.
// `is_numbered` stays a bool: it says one thing, whether a row is shown with its line's number, and chooses no step.
pub fn run_rows<T: AnswerRow>(
    rt: &impl Print,
    text: &str,
    out: &mut [u8],
    is_numbered: bool,
    to: &mut T,
) -> io::Result<Count>
    ensures { IfOk result (λ count. count.differing ≤ count.rows) }
{
    let mut count = Count::default();
    for (line, row) in (1..=u64::MAX).zip(text.lines()) {
        if row.is_empty() || row.starts_with('#') || row.get(1..2) == Some(" ") {
            continue;
        }
        let (call, known) = row.split_once(" -> ").unwrap_or((row, ""));
        let length = to.answer(out, call);
        let given = front(out, length);
        let differs = given.is_empty() || given != known.as_bytes();
        count.add_row(differs);
        if differs {
            show(rt, is_numbered.then_some(line), row, given)?;
        }
    }
    Ok(count)
}
