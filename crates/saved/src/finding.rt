// SPDX-License-Identifier: Apache-2.0 AND BSD-3-Clause
// Where a text or old bytes can first no longer be those of a state, and why. This explains, and decides nothing:
// whether they are refused, and as which number, the crates `save` and `old_form` say.
use super::saying::{ALIGNMENT, Kind, LEAST_REGION, MOST_REGION, Why};
use forms::scan_at;
use save::Fields;
use std::fmt;
use std::fmt::{Display, Formatter, Write};
use units::{MemTool, sum_within};

// Where it is wrong, and why: in a line of a text; or in old bytes and their fields.
#[derive(Clone, Copy)]
pub enum Found {
    Line { number: u64, why: Why },
    Old(Why),
}

impl Display for Found {
    fn fmt<W: Write>(&self, f: &mut Formatter<W>) -> fmt::Result {
        match *self {
            Found::Line { number, why } => write!(f, "line {number}: {why}"),
            Found::Old(why) => write!(f, "{why}"),
        }
    }
}

// The number of the form.
fn check_form(form: u64) -> Result<(), Why> {
    if form < 2 {
        return Err(Why::Earlier { form });
    }
    if 2 < form {
        return Err(Why::Later { form });
    }
    Ok(())
}

// The start of the region.
fn check_start(start: u64) -> Result<(), Why> {
    if start % ALIGNMENT != 0 {
        return Err(Why::Unaligned { start });
    }
    if !sum_within(start, LEAST_REGION, u64::MAX) {
        return Err(Why::TooHigh { start });
    }
    Ok(())
}

// The size of the region, which has this start.
fn check_region(start: u64, region: u64) -> Result<(), Why> {
    if region == 0 || region % LEAST_REGION != 0 || MOST_REGION < region {
        return Err(Why::Region { region });
    }
    if !sum_within(start, region, u64::MAX) {
        return Err(Why::RegionHigh { start, region });
    }
    Ok(())
}

// One of three sizes: a multiple of the block size, at most the region.
fn check_size(kind: Kind, size: u64, region: u64) -> Result<(), Why> {
    if size % MemTool::BLOCK_SIZE != 0 || region < size {
        return Err(Why::Size { kind, size, region });
    }
    Ok(())
}

// The plugged size, beside the region's and the usable one.
fn check_plugged(f: Fields) -> Result<(), Why> {
    check_size(Kind::Plugged, f.plugged, f.region)?;
    if f.usable < f.plugged {
        return Err(Why::Unusable {
            plugged: f.plugged,
            usable: f.usable,
        });
    }
    Ok(())
}

// What is wrong with the fields that old bytes are given, as in the lines of a text.
fn check_fields(f: Fields) -> Result<(), Why> {
    check_start(f.start)?;
    check_region(f.start, f.region)?;
    check_size(Kind::Requested, f.requested, f.region)?;
    check_size(Kind::Usable, f.usable, f.region)?;
    check_plugged(f)
}

// What was read of a text: its fields, where a run may begin, and how many blocks the runs have.
#[derive(Drop)]
struct Seen {
    fields: Fields,
    free: u64,
    blocks: u64,
}

impl Seen {
    // Of a text of which nothing was read.
    fn nothing() -> Seen {
        Seen {
            fields: Fields {
                block: MemTool::BLOCK_SIZE,
                start: 0,
                region: 0,
                requested: 0,
                usable: 0,
                plugged: 0,
            },
            free: 0,
            blocks: 0,
        }
    }

    // A run, after those before it.
    fn run(&mut self, first: u64, count: u64) -> Result<(), Why> {
        if count == 0 {
            return Err(Why::Empty { first });
        }
        if first < self.free {
            return Err(Why::Touches { first, count });
        }
        let usable = MemTool::blocks_in(self.fields.usable, self.fields.block);
        if !sum_within(first, count, usable) {
            return Err(Why::Past { first, count });
        }
        self.free = first.wrapping_add(count).wrapping_add(1);
        self.blocks = self.blocks.wrapping_add(count);
        Ok(())
    }

    // A line of this kind, without its newline, after the lines before it.
    fn line(&mut self, kind: Kind, line: &[u8]) -> Result<(), Why> {
        let mut numbers = [0; 2];
        let Some(end) = scan_at(line, 0, kind.form(), &mut numbers) else {
            return Err(Why::NotLine(kind));
        };
        if end < line.len() {
            return Err(Why::Behind);
        }
        let [number, count] = numbers;
        let f = &mut self.fields;
        match kind {
            Kind::Form => check_form(number),
            Kind::Start => {
                f.start = number;
                check_start(number)
            }
            Kind::Region => {
                f.region = number;
                check_region(f.start, number)
            }
            Kind::Requested => {
                f.requested = number;
                check_size(kind, number, f.region)
            }
            Kind::Usable => {
                f.usable = number;
                check_size(kind, number, f.region)
            }
            Kind::Plugged => {
                f.plugged = number;
                check_plugged(*f)
            }
            Kind::Run => self.run(number, count),
        }
    }

    // A last line without a newline: what has none is no later form.
    fn last_line(&mut self, kind: Kind, line: &[u8]) -> Why {
        match self.line(kind, line) {
            Ok(()) | Err(Why::Later { form: _ }) => Why::NoNewline,
            Err(why) => why,
        }
    }

    // The end of a text, before the line with this number.
    fn end(&self, number: u64) -> Result<(), Found> {
        if number <= 6 {
            return Err(Found::Line {
                number,
                why: Why::Ends,
            });
        }
        let plugged = self.fields.plugged;
        let blocks = self.blocks;
        if MemTool::blocks_in(plugged, self.fields.block) != blocks {
            return Err(Found::Line {
                number: 6,
                why: Why::Runs { plugged, blocks },
            });
        }
        Ok(())
    }
}

// The first line at which a text can no longer be that of a state.
pub fn check_text(text: &[u8]) -> Result<(), Found> {
    let mut seen = Seen::nothing();
    let mut number = 1u64;
    for line in text.split_inclusive(|b| *b == b'\n') {
        let kind = Kind::of_line(number);
        match line.strip_suffix(b"\n") {
            Some(line) => seen
                .line(kind, line)
                .map_err(|why| Found::Line { number, why })?,
            None => {
                let why = seen.last_line(kind, line);
                return Err(Found::Line { number, why });
            }
        }
        number = number.saturating_add(1);
    }
    seen.end(number)
}

// One of old bytes.
fn check_byte(at: u64, byte: u8, all: u64, usable: u64) -> Result<(), Why> {
    if all <= at {
        return Err(Why::TooMany { at, all });
    }
    if 1 < byte {
        return Err(Why::NoBit { at, byte });
    }
    if byte == 1 && usable <= at {
        return Err(Why::PastByte { at, usable });
    }
    Ok(())
}

// All of old bytes.
fn check_bytes(old: &[u8], f: Fields) -> Result<(), Why> {
    let all = MemTool::blocks_in(f.region, f.block);
    let usable = MemTool::blocks_in(f.usable, f.block);
    for (at, byte) in old.iter().enumerate() {
        check_byte(at as u64, *byte, all, usable)?;
    }
    let at = old.len() as u64;
    if at < all {
        return Err(Why::Missing { at, all });
    }
    let set = old.iter().filter(|byte| **byte == 1).count() as u64;
    if MemTool::blocks_in(f.plugged, f.block) != set {
        return Err(Why::Bytes {
            plugged: f.plugged,
            set,
        });
    }
    Ok(())
}

// The first of the fields, or else of old bytes, at which they can no longer be those of a state.
pub fn check_old(old: &[u8], f: Fields) -> Result<(), Found> {
    check_fields(f).map_err(Found::Old)?;
    check_bytes(old, f).map_err(Found::Old)
}
