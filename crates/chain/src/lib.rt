// SPDX-License-Identifier: Apache-2.0 AND BSD-3-Clause
// From the descriptors of a chain to a request, and the response back.
#![tactic(auto)]

ghost use Rattle.std.specs.Prelude.{◌≡◌};
ghost use Rattle.chain.specs.Chain.{with_first, with_second, parsed, reason, reaches, delivered};

use descriptors::{Descriptor, link_after, link_at, place_of};
use units::GuestAddr;
use wire::{VirtioMemReq, VirtioMemResp, read_request, write_response};

// The bytes of a request and of a response.
const REQUEST_SIZE: u32 = 24;

const RESPONSE_SIZE: u32 = 10;

// What a chain asks: a request, and the address for its response.
#[derive(Clone, Copy)]
pub struct Asked {
    pub request: VirtioMemReq,
    pub status: GuestAddr,
}

// Why a chain asks nothing (R9.3 to R9.5), or asks what no device knows (R9.8).
#[derive(Clone, Copy, Debug, PartialEq, Eq)]
pub enum NoRequest {
    // The request's type is none of the four.
    UnknownType,
    // The first or the second descriptor is missing (R1.21).
    Missing,
    // The first descriptor is write-only (R1.22).
    FirstWriteOnly,
    // The first descriptor's length is not 24 (R1.23).
    WrongLength,
    // The 24 bytes of the request are not inside guest memory (R1.24).
    NotInside,
    // The second descriptor is not writable (R1.25).
    NotWritable,
    // The second descriptor's length is under 10 (R1.26).
    TooShort,
    // The first or the second descriptor has the indirect flag (R1.27).
    Indirect,
}

impl NoRequest {
    // The reason's number, 21 to 27 (R1), and 0 for an unknown type.
    pub fn number(self) -> u64
        ensures { result ≡ reason self }
    {
        match self {
            NoRequest::UnknownType => 0,
            NoRequest::Missing => 21,
            NoRequest::FirstWriteOnly => 22,
            NoRequest::WrongLength => 23,
            NoRequest::NotInside => 24,
            NoRequest::NotWritable => 25,
            NoRequest::TooShort => 26,
            NoRequest::Indirect => 27,
        }
    }
}

// The tests of the second descriptor (R9.5).
#[tactic(auto, unfolding(crate::specs::Chain::with_second))]
fn with_second(req: VirtioMemReq, found: Option<Descriptor>) -> Result<Asked, NoRequest>
    ensures { result ≡ with_second req found }
{
    let Some(second) = found else {
        return Err(NoRequest::Missing);
    };
    let read_only = !second.is_write_only();
    let indirect = second.is_indirect();
    let short = second.len < RESPONSE_SIZE;
    if indirect {
        return Err(NoRequest::Indirect);
    }
    if read_only {
        return Err(NoRequest::NotWritable);
    }
    if short {
        return Err(NoRequest::TooShort);
    }
    Ok(Asked {
        request: req,
        status: second.addr,
    })
}

// The tests of the first descriptor (R9.4); the request is read here and nowhere else (R9.9).
#[tactic(auto, using(descriptors::proofs::Laws::place_found), unfolding(crate::specs::Chain::with_first))]
fn with_first(
    mem: &[u8],
    base: GuestAddr,
    table: GuestAddr,
    found: Option<Descriptor>,
) -> Result<Asked, NoRequest>
    ensures { result ≡ with_first mem.now base.0 table.0 found }
{
    let Some(first) = found else {
        return Err(NoRequest::Missing);
    };
    let write_only = first.is_write_only();
    let indirect = first.is_indirect();
    let wrong_length = first.len != REQUEST_SIZE;
    if indirect {
        return Err(NoRequest::Indirect);
    }
    if write_only {
        return Err(NoRequest::FirstWriteOnly);
    }
    if wrong_length {
        return Err(NoRequest::WrongLength);
    }
    let addr = first.addr;
    let Some(at) = place_of(mem, base, addr, REQUEST_SIZE as u64) else {
        return Err(NoRequest::NotInside);
    };
    let req = read_request(mem, at);
    with_second(req, link_after(mem, base, table, first))
}

// The request of the chain that starts at `head`, and the address of its response.
pub fn parse(mem: &[u8], base: GuestAddr, table: GuestAddr, head: u16) -> Result<Asked, NoRequest>
    ensures { result ≡ parsed mem.now base.0 table.0 head }
{
    with_first(mem, base, table, link_at(mem, base, table, head))
}

// Writes the response's 10 bytes, or nothing where they are not wholly inside; it says which.
pub fn deliver(mem: &mut [u8], base: GuestAddr, status: GuestAddr, resp: VirtioMemResp) -> bool
    ensures value { result ≡ reaches mem.old base.0 status.0 }
    ensures mem_after { mem.new ≡ delivered mem.old base.0 status.0 resp }
{
    let Some(at) = place_of(&mem[..], base, status, RESPONSE_SIZE as u64) else {
        return false;
    };
    write_response(mem, at, resp);
    true
}
