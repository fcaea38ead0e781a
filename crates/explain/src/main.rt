// SPDX-License-Identifier: Apache-2.0 AND BSD-3-Clause
// Explains a trace: each line from the standard input with its number, its answer, and one sentence of what that means;
// at the end a summary, and the map of blocks.
//
// Lines are read as the program `trace` reads them. What a line is answered, and which sentence it gets, is promised by
// `explaining::explain`; here it is read, written and counted.
#![tactic(auto)]

use explaining::{explain, put_shown};
use line_input::{AnswerLine, answer_lines};
use record::Device;
use refusals::put_waits;
use sentences::{put_gap, put_row, same_row};
use std::alloc::Global;
use std::io;
use std::io::{BufWriter, Write};
use step::Answer;
use trace_run::{Run, first_bytes};
use units::MemTool;

// A row of the map has so many blocks. A region is whole rows: it is a multiple of 256 MiB.
const ROW: u32 = 64;

// The rows of the largest region.
const ROWS: u64 = 4096;

// How many bytes are held before they are written.
const ROOM: usize = 65536;

// Whether an answer is a refusal, a NACK or an ERROR.
fn holds_back(answer: Answer) -> bool {
    match answer {
        Answer::Refused(_) => true,
        Answer::Served(reply) => 0 < reply.response.resp_type,
        _ => false,
    }
}

// Whether the guest has what was requested.
fn has_all(run: Run) -> bool {
    matches!(run, Run::On(device) if device.config.plugged_size == device.config.requested_size)
}

// Writes a line, or a sentence, as it is shown.
fn write_shown<W: Write>(line: &[u8], to: &mut W) -> io::Result<()> {
    let mut text = [0; 256];
    let end = put_shown(&mut text, 0, line);
    to.write_all(first_bytes(&text, end))
}

// Writes a line with its number, its answer if it has one, and its sentence.
fn write_line<W: Write>(
    number: u64,
    line: &[u8],
    answer: &[u8],
    said: &[u8],
    to: &mut W,
) -> io::Result<()> {
    write!(to, "{number}: ")?;
    write_shown(line, to)?;
    to.write_all(b"\n")?;
    if !answer.is_empty() {
        to.write_all(b"    ")?;
        to.write_all(answer)?;
    }
    to.write_all(b"    ")?;
    write_shown(said, to)?;
    to.write_all(b"\n")
}

// Writes a line of the map: so many equal rows, and the number of their first block.
fn write_rows<W: Write>(bitmap: &[u8], block: u32, rows: u32, to: &mut W) -> io::Result<()> {
    let mut text = [0; 256];
    let end = put_row(&mut text, 0, bitmap, block, ROW);
    to.write_all(b"    ")?;
    to.write_all(first_bytes(&text, end))?;
    if 1 < rows {
        return writeln!(to, "  block {block}, {rows} rows alike");
    }
    writeln!(to, "  block {block}")
}

// Writes the map, a line for each run of equal rows.
fn write_map<W: Write>(bitmap: &[u8], blocks: u64, to: &mut W) -> io::Result<()> {
    let rows = (blocks / 64).min(ROWS) as u32;
    let mut first = 0;
    for row in 1..rows {
        if !same_row(bitmap, first * ROW, row * ROW, ROW) {
            write_rows(bitmap, first * ROW, row - first, to)?;
            first = row;
        }
    }
    if first < rows {
        write_rows(bitmap, first * ROW, rows - first, to)?;
    }
    Ok(())
}

// Writes the sizes, what is pending, and how far the guest is from what was requested.
fn write_sizes<W: Write>(d: Device, to: &mut W) -> io::Result<()> {
    let requested = d.config.requested_size / MemTool::MIB;
    let usable = d.config.usable_region_size / MemTool::MIB;
    let plugged = d.config.plugged_size / MemTool::MIB;
    writeln!(
        to,
        "\nsummary: requested {requested} MiB, usable {usable} MiB, plugged {plugged} MiB"
    )?;
    if !d.placed {
        to.write_all(b"    the device is in no place\n")?;
    }
    let mut text = [0; 1024];
    let end = put_waits(&mut text, 0, d);
    to.write_all(b"    ")?;
    to.write_all(first_bytes(&text, end))?;
    let end = put_gap(&mut text, 0, d.config.requested_size, d.config.plugged_size);
    to.write_all(b"\n    ")?;
    to.write_all(first_bytes(&text, end))?;
    to.write_all(b"\n")
}

// A line that keeps the guest from what was requested: its number, and its sentence.
#[derive(Drop)]
struct Reason {
    line: u64,
    said: Vec<u8>,
}

// A run, with what it lends to the device and to the guest; how many lines were answered; the last of them that was a
// refusal, a NACK or an ERROR, since the guest had what was requested or a size change was done; and where all of that
// is written.
#[derive(Drop)]
struct Session<W: Write + Drop> {
    run: Run,
    bitmap: [u8; 32768],
    table: [u64; 1536],
    mem: [u8; 128],
    lines: u64,
    reason: Option<Reason>,
    alloc: Global,
    to: W,
}

impl<W: Write + Drop> Session<W> {
    // A run before its first line.
    fn new(alloc: Global, to: W) -> Session<W> {
        Session {
            run: Run::Before,
            bitmap: [0; 32768],
            table: [0; 1536],
            mem: [0; 128],
            lines: 0,
            reason: None,
            alloc,
            to,
        }
    }

    // What keeps the guest from what was requested, after an answer that was told by a sentence. What was refused
    // before a size change, or placing, is done keeps the guest from nothing.
    fn keep_reason(&mut self, answer: Answer, said: &[u8]) -> io::Result<()> {
        if matches!(answer, Answer::Sized) || has_all(self.run) {
            self.reason = None;
        } else if holds_back(answer) {
            self.reason = Some(Reason {
                line: self.lines,
                said: said.to_vec(self.alloc)?,
            });
        }
        Ok(())
    }

    // Writes what has kept the guest from what was requested.
    fn write_reason(&mut self) -> io::Result<()> {
        let Some(Reason { line, said }) = &self.reason else {
            return self.to.write_all(b"    why: no refusal, no NACK and no ERROR keeps it there\n");
        };
        write!(self.to, "    why: line {line}: ")?;
        write_shown(said.as_slice(), &mut self.to)?;
        self.to.write_all(b"\n")
    }

    // Writes the summary.
    fn sum_up(&mut self) -> io::Result<()> {
        let Run::On(device) = self.run else {
            self.to
                .write_all(b"\nsummary: the run never had a device\n")?;
            if self.reason.is_some() {
                self.write_reason()?;
            }
            return Ok(());
        };
        write_sizes(device, &mut self.to)?;
        if !has_all(self.run) {
            self.write_reason()?;
        }
        self.to
            .write_all(b"    blocks, 64 to a row, # plugged, . unplugged:\n")?;
        let blocks = MemTool::blocks_in(device.config.region_size, device.config.block_size);
        write_map(&self.bitmap, blocks, &mut self.to)
    }
}

impl<W: Write + Drop> AnswerLine for Session<W> {
    // The line is explained, and what keeps the guest from what was requested is kept.
    fn answer(&mut self, line: &[u8]) -> io::Result<()> {
        let mut out = [0; 256];
        let mut said = [0; 256];
        self.lines = self.lines.saturating_add(1);
        let told = explain(
            self.run,
            &mut self.bitmap,
            &mut self.table,
            &mut self.mem,
            line,
            &mut out,
            &mut said,
        );
        self.run = told.shown.run;
        let answer = first_bytes(&out, told.shown.length);
        let sentence = first_bytes(&said, told.said);
        write_line(self.lines, line, answer, sentence, &mut self.to)?;
        self.keep_reason(told.shown.answer, sentence)
    }

    fn flush(&mut self) -> io::Result<()> {
        self.to.flush()
    }
}

fn main(rt: HostRuntime) -> io::Result<()> {
    let to = BufWriter::with_capacity(rt.alloc(), ROOM, io::writer(&rt))?;
    let mut session = Session::new(rt.alloc(), to);
    answer_lines(rt.alloc(), &mut rt.reader(), &mut session)?;
    session.sum_up()?;
    session.flush()
}
