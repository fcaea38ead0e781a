// SPDX-License-Identifier: Apache-2.0 AND BSD-3-Clause
// Trace lines: house lines to values. Each line is defined by its text, in specs/Lines.antt.
#![tactic(auto)]

ghost use Rattle.std.specs.Prelude.{◌≡◌};
ghost use Rattle.trace_text.specs.Lines.{Reads};
ghost use Rattle.trace_text.specs.Reading.{form_of, first_line_of, made_of, kind_of};

use units::{GuestAddr, HostAddr};

// The first line, which makes the device and places it.
#[derive(Clone, Copy)]
pub struct FirstLine {
    pub capacity_mib: u64,
    pub requested_mib: u64,
    pub multi: bool,
    pub node: Option<u16>,
    pub boot: u64,
    pub addr: GuestAddr,
    pub slot: u64,
}

// What a guest may ask of a range of blocks.
#[derive(Clone, Copy, Debug, PartialEq, Eq)]
pub enum RangeOp {
    Plug,
    Unplug,
    State,
}

// A line after the first.
#[derive(Clone, Copy)]
pub enum Op {
    Host {
        ok: bool,
        addr: HostAddr,
    },
    Range {
        op: RangeOp,
        addr: GuestAddr,
        blocks: u16,
    },
    UnplugAll,
    Size {
        mib: u64,
    },
}

// A line that is in its range. What is no such line is refused as 13.
#[derive(Clone, Copy)]
pub enum Line {
    First(FirstLine),
    Later(Op),
}

// What a line can be, by its words.
#[derive(Clone, Copy)]
enum Kind {
    FirstNumbered,
    FirstNone,
    Host,
    Range(RangeOp),
    UnplugAll,
    Size,
}

// Every kind, in the order in which they are tried: no text is of two.
const KINDS: [Kind; 8] = [
    Kind::FirstNumbered,
    Kind::FirstNone,
    Kind::Host,
    Kind::Range(RangeOp::Plug),
    Kind::Range(RangeOp::Unplug),
    Kind::Range(RangeOp::State),
    Kind::UnplugAll,
    Kind::Size,
];

// R12.1. No text that is in range has more than 155.
const LONGEST: usize = 200;

// The largest `slot` that a first line may have.
const LAST_SLOT: u64 = 4294966000;

impl Kind {
    // The words, in which # stands for a number.
    fn form(self) -> &'static [u8]
        ensures { result.now ≡ form_of self }
    {
        match self {
            Kind::FirstNumbered =>
                b"capacity_mib=# requested_mib=# multi=# node=# boot=# addr=# slot=#",
            Kind::FirstNone =>
                b"capacity_mib=# requested_mib=# multi=# node=none boot=# addr=# slot=#",
            Kind::Host => b"op=host ok=# addr=#",
            Kind::Range(RangeOp::Plug) => b"op=plug addr=# blocks=#",
            Kind::Range(RangeOp::Unplug) => b"op=unplug addr=# blocks=#",
            Kind::Range(RangeOp::State) => b"op=state addr=# blocks=#",
            Kind::UnplugAll => b"op=unplug_all",
            Kind::Size => b"op=size mib=#",
        }
    }
}

// The first line of these numbers, if they are in their ranges.
fn first_line(
    capacity_mib: u64,
    requested_mib: u64,
    multi: u64,
    node: Option<u16>,
    boot: u64,
    addr: u64,
    slot: u64,
) -> Option<Line>
    ensures { result ≡ first_line_of capacity_mib requested_mib multi node boot addr slot }
{
    if (multi <= 1) & (slot <= LAST_SLOT) {
        return Some(Line::First(FirstLine {
            capacity_mib,
            requested_mib,
            multi: multi == 1,
            node,
            boot,
            addr: GuestAddr(addr),
            slot,
        }));
    }
    None
}

// The line that the numbers of a kind make, if each is in its range. A line has at most seven.
fn made(kind: Kind, n: [u64; 7]) -> Option<Line>
    ensures { result ≡ made_of kind n }
{
    match kind {
        Kind::FirstNumbered => {
            let node = u16::try_from(n[3]).ok()?;
            first_line(n[0], n[1], n[2], Some(node), n[4], n[5], n[6])
        }
        Kind::FirstNone => first_line(n[0], n[1], n[2], None, n[3], n[4], n[5]),
        Kind::Host => {
            if 1 < n[0] {
                return None;
            }
            Some(Line::Later(Op::Host {
                ok: n[0] == 1,
                addr: HostAddr(n[1]),
            }))
        }
        Kind::Range(op) => {
            let blocks = u16::try_from(n[1]).ok()?;
            let addr = GuestAddr(n[0]);
            Some(Line::Later(Op::Range { op, addr, blocks }))
        }
        Kind::UnplugAll => Some(Line::Later(Op::UnplugAll)),
        Kind::Size => Some(Line::Later(Op::Size { mib: n[0] })),
    }
}

// The line of a text that is to be of this kind.
fn of_kind(s: &[u8], kind: Kind) -> Option<Line>
    ensures { result ≡ kind_of kind s.now }
{
    let mut n = [0u64; 7];
    if forms::scan(s, kind.form(), &mut n) {
        return made(kind, n);
    }
    None
}

// The line whose text this is.
pub fn read_line(s: &[u8]) -> Option<Line>
    ensures { Reads s.now result }
{
    if LONGEST < s.len() {
        return None;
    }
    for kind in KINDS {
        let line = of_kind(s, kind);
        if line.is_some() {
            return line;
        }
    }
    None
}
