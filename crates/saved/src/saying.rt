// SPDX-License-Identifier: Apache-2.0 AND BSD-3-Clause
// What is wrong, in words.
use std::fmt;
use std::fmt::{Display, Formatter, Write};
use units::MemTool;

const BLOCK: u64 = MemTool::BLOCK_SIZE;

pub const ALIGNMENT: u64 = 128 * MemTool::MIB;

pub const LEAST_REGION: u64 = 256 * MemTool::MIB;

pub const MOST_REGION: u64 = 1024 * MemTool::GIB;

// The kinds of line, in the order of a text: one line of each, but for runs any number.
#[derive(Clone, Copy)]
pub enum Kind {
    Form,
    Start,
    Region,
    Requested,
    Usable,
    Plugged,
    Run,
}

impl Kind {
    // Of the line with this number; the first has 1.
    pub fn of_line(number: u64) -> Kind {
        match number {
            1 => Kind::Form,
            2 => Kind::Start,
            3 => Kind::Region,
            4 => Kind::Requested,
            5 => Kind::Usable,
            6 => Kind::Plugged,
            _ => Kind::Run,
        }
    }

    // The form of such a line.
    pub fn form(self) -> &'static [u8] {
        match self {
            Kind::Form => b"form=#",
            Kind::Start => b"start=#",
            Kind::Region => b"region=#",
            Kind::Requested => b"requested=#",
            Kind::Usable => b"usable=#",
            Kind::Plugged => b"plugged=#",
            Kind::Run => b"run=#,#",
        }
    }
}

// The word that such a line begins with.
impl Display for Kind {
    fn fmt<W: Write>(&self, f: &mut Formatter<W>) -> fmt::Result {
        f.write_str(match self {
            Kind::Form => "form",
            Kind::Start => "start",
            Kind::Region => "region",
            Kind::Requested => "requested",
            Kind::Usable => "usable",
            Kind::Plugged => "plugged",
            Kind::Run => "run",
        })
    }
}

// Why a text, or old bytes with their fields, are no state's.
#[derive(Clone, Copy)]
pub enum Why {
    // Of any line.
    NotLine(Kind),
    Behind,
    NoNewline,
    Ends,
    // Of the number of the form, and of a field.
    Earlier { form: u64 },
    Later { form: u64 },
    Unaligned { start: u64 },
    TooHigh { start: u64 },
    Region { region: u64 },
    RegionHigh { start: u64, region: u64 },
    Size { kind: Kind, size: u64, region: u64 },
    Unusable { plugged: u64, usable: u64 },
    // Of a run, and of the plugged size beside all runs.
    Empty { first: u64 },
    Touches { first: u64, count: u64 },
    Past { first: u64, count: u64 },
    Runs { plugged: u64, blocks: u64 },
    // Of a byte, and of the plugged size beside all bytes.
    NoBit { at: u64, byte: u8 },
    PastByte { at: u64, usable: u64 },
    TooMany { at: u64, all: u64 },
    Missing { at: u64, all: u64 },
    Bytes { plugged: u64, set: u64 },
}

impl Display for Why {
    fn fmt<W: Write>(&self, f: &mut Formatter<W>) -> fmt::Result {
        match *self {
            Why::NotLine(Kind::Form) => write!(f, "not form=2"),
            Why::NotLine(Kind::Run) => write!(
                f,
                "not run=FIRST,COUNT, both decimal, below 2^64, with no leading zero"
            ),
            Why::NotLine(kind) => write!(
                f,
                "not {kind}=N, N decimal, below 2^64, with no leading zero"
            ),
            Why::Behind => write!(
                f,
                "something stands before the newline, as a space or a carriage return"
            ),
            Why::NoNewline => write!(f, "no newline at the end"),
            Why::Ends => write!(f, "the text ends before this line"),
            Why::Earlier { form } => write!(f, "form={form} is not form=2"),
            Why::Later { form } => write!(f, "form={form} is a later form than form=2"),
            Why::Unaligned { start } => {
                write!(f, "start={start} is not a multiple of {ALIGNMENT}")
            }
            Why::TooHigh { start } => {
                write!(f, "start={start} leaves no room for a region below 2^64")
            }
            Why::Region { region } => write!(
                f,
                "region={region} is not a positive multiple of {LEAST_REGION} up to {MOST_REGION}"
            ),
            Why::RegionHigh { start, region } => write!(
                f,
                "start={start} and region={region} together pass 2^64 - 1"
            ),
            Why::Size { kind, size, region } => write!(
                f,
                "{kind}={size} is not a multiple of {BLOCK} up to region={region}"
            ),
            Why::Unusable { plugged, usable } => {
                write!(f, "plugged={plugged} is above usable={usable}")
            }
            Why::Empty { first } => write!(f, "run={first},0 has no block"),
            Why::Touches { first, count } => write!(
                f,
                "run={first},{count} touches or falls behind the run before it"
            ),
            Why::Past { first, count } => {
                write!(f, "run={first},{count} ends past the usable size")
            }
            Why::Runs { plugged, blocks } => write!(
                f,
                "plugged={plugged} is not {BLOCK} times the {blocks} blocks of the runs"
            ),
            Why::NoBit { at, byte } => write!(f, "byte {at}: {byte} is neither 0 nor 1"),
            Why::PastByte { at, usable } => {
                write!(f, "byte {at}: 1, past the {usable} usable blocks")
            }
            Why::TooMany { at, all } => {
                write!(
                    f,
                    "byte {at}: one too many for the {all} blocks of the region"
                )
            }
            Why::Missing { at, all } => {
                write!(f, "byte {at}: missing, since the region has {all} blocks")
            }
            Why::Bytes { plugged, set } => write!(
                f,
                "plugged={plugged} is not {BLOCK} times the {set} bytes that are 1"
            ),
        }
    }
}
