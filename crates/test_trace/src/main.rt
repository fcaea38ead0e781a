// SPDX-License-Identifier: Apache-2.0 AND BSD-3-Clause
// Runs traces whose answers are known, and compares. A file of data/ has a block for each trace: its lines, a line
// `--`, its answers, and an empty line. In an answer `*` stands for any value of a field.
//
// traces.txt has what mem.rs answers: first to the example (R12.12) and the edges W1 to W11, then to random traces,
// each up to the first unplug-all that is refused. parts.txt has plugs in one request and the same in parts, with what
// mem.rs answers (request 10/12). amended.txt goes on behind a refused unplug-all, where the rules depart from
// mem.rs: its answers were worked out by a model of both documents. recorded.txt has requests that Linux's driver made
// in a guest of QEMU, and the fields of QEMU's answers that may be compared. edges.txt has the edges of a line's form:
// its answers were read against the rules (R12). why.txt has each reason of an ERROR at its edge and next to it, and
// two at once: the earlier is told (request 8/12).
#![tactic(auto)]

use little_endian::from;
use std::alloc::Allocator;
use std::rt::Files;
use std::{fs, io};
use trace_run::{Run, first_bytes, serve};

// A block that is run: its device, with tables of its own, what it has answered and, behind the line `--`, how many
// bytes of that have been compared. The answers are the same so far, or not.
#[derive(Drop)]
struct Block<A: Allocator> {
    run: Run,
    bitmap: [u8; 32768],
    table: [u64; 1536],
    mem: [u8; 128],
    answers: Vec<u8, A>,
    compared: Option<usize>,
    same: bool,
}

impl<A: Allocator> Block<A> {
    fn new(alloc: A) -> Self {
        Block {
            run: Run::Before,
            bitmap: [0; 32768],
            table: [0; 1536],
            mem: [0; 128],
            answers: Vec::new(alloc),
            compared: None,
            same: true,
        }
    }

    // Serves a line, and keeps its answer.
    fn serve(&mut self, line: &[u8]) -> io::Result<()> {
        let mut out = [0; 256];
        let shown = serve(
            self.run,
            &mut self.bitmap,
            &mut self.table,
            &mut self.mem,
            line,
            &mut out,
        );
        self.run = shown.run;
        self.answers
            .extend_from_slice(first_bytes(&out, shown.length))?;
        Ok(())
    }

    // Compares a known line with the next answer. One that differs is shown, and what the run gave for it.
    fn compare(&mut self, rt: &impl Print, known: &[u8], compared: usize) -> io::Result<()> {
        let given = from(self.answers.as_slice(), compared)
            .split_inclusive(|b| *b == b'\n')
            .next()
            .unwrap_or(&[]);
        self.compared = Some(compared + given.len());
        if !fits(text_of(known), text_of(given)) {
            self.same = false;
            print!(rt; "\n  known ")?;
            rt.write_all(known)?;
            print!(rt; "  given ")?;
            rt.write_all(given)?;
        }
        Ok(())
    }

    // Takes a line, and answers whether the block has ended.
    fn take(&mut self, rt: &impl Print, line: &[u8]) -> io::Result<bool> {
        match self.compared {
            None if line == b"--\n".as_slice() => self.compared = Some(0),
            None => self.serve(text_of(line))?,
            Some(_) if line == b"\n".as_slice() => return Ok(true),
            Some(compared) => self.compare(rt, line, compared)?,
        }
        Ok(false)
    }

    fn is_begun(&self) -> bool {
        self.compared.is_some() || !self.answers.is_empty()
    }

    // Whether all answers were known, and the same.
    fn is_same(&self) -> bool {
        self.same & (self.compared == Some(self.answers.len()))
    }
}

// A line without its end.
fn text_of(line: &[u8]) -> &[u8] {
    line.strip_suffix(b"\n").unwrap_or(line)
}

// Whether a field is as it is known: `*` stands for any value.
fn is_known(known: &[u8], given: &[u8]) -> bool {
    match known.strip_suffix(b"*") {
        Some(name) => given.starts_with(name),
        None => given == known,
    }
}

// Whether a line has the known fields.
fn fits(known: &[u8], given: &[u8]) -> bool {
    let is_blank = |b: &u8| *b == b' ';
    let mut fields = known.split(is_blank).zip(given.split(is_blank));
    known.split(is_blank).count() == given.split(is_blank).count()
        && fields.all(|(known, given)| is_known(known, given))
}

// How many traces there were, and how many of these differ.
#[derive(Clone, Copy, Default)]
struct Count {
    traces: u64,
    differing: u64,
}

impl Count {
    // Counts a trace, and shows one that differs, by its number from 1 on.
    fn add(&mut self, rt: &impl Print, is_same: bool) -> io::Result<()> {
        self.traces = self.traces.saturating_add(1);
        if !is_same {
            self.differing = self.differing.saturating_add(1);
            println!(rt; "{} differs", self.traces)?;
        }
        Ok(())
    }
}

// A last block that lacks its empty line differs.
fn run_blocks(rt: &(impl Print + Alloc), text: &[u8]) -> io::Result<()> {
    let mut count = Count::default();
    let mut block = Block::new(rt.alloc());
    for line in text.split_inclusive(|b| *b == b'\n') {
        if block.take(rt, line)? {
            count.add(rt, block.is_same())?;
            block = Block::new(rt.alloc());
        }
    }
    if block.is_begun() {
        count.add(rt, false)?;
    }
    println!(rt; "{} traces, {} differ", count.traces, count.differing)
}

fn run_file(rt: &(impl Files + Print + Alloc), name: &str) -> io::Result<()> {
    let text = fs::read(rt, name)?;
    print!(rt; "{name}: ")?;
    run_blocks(rt, &text)
}

fn main(rt: HostRuntime) -> io::Result<()> {
    let names = [
        "traces.txt",
        "parts.txt",
        "amended.txt",
        "recorded.txt",
        "edges.txt",
        "why.txt",
    ];
    for name in names {
        run_file(&rt, name)?;
    }
    Ok(())
}
