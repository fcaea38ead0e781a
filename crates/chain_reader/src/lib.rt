// SPDX-License-Identifier: Apache-2.0 AND BSD-3-Clause
// A chain reader, which holds the guest memory that it walks: its functions call those of `chain` on plain values.
#![tactic(auto)]

ghost use Rattle.std.specs.Prelude.{◌≡◌};
ghost use Rattle.descriptors.specs.Descriptors.{link_at};
ghost use Rattle.chain.specs.Chain.{parsed};
ghost use Rattle.chain_reader.specs.Reader.{reader_index, second_link};

use chain::{Asked, NoRequest, parse};
use descriptors::{Descriptor, link_at};
use units::GuestAddr;

// An index at which no descriptor is.
const NO_INDEX: u16 = 128;

// The index that follows an index.
fn index_after(mem: &[u8], base: GuestAddr, descriptors: GuestAddr, index: u16) -> u16
    ensures { result ≡ reader_index (link_at mem.now base.0 descriptors.0 index) }
{
    let Some(current) = link_at(mem, base, descriptors, index) else {
        return NO_INDEX;
    };
    if current.has_next() {
        current.next
    } else {
        NO_INDEX
    }
}

// A place in a chain of descriptors.
#[derive(Clone, Copy)]
pub struct ChainReader<'a> {
    pub mem: &'a [u8],
    pub base: GuestAddr,
    pub descriptors: GuestAddr,
    pub index: u16,
}

impl<'a> ChainReader<'a> {
    // A reader at the head of a chain.
    pub fn new(mem: &'a [u8], base: GuestAddr, descriptors: GuestAddr, head: u16) -> ChainReader<'a>
        ensures { (result.mem ≡ mem.entry) × (result.base ≡ base) × (result.descriptors ≡ descriptors)
            × (result.index ≡ head) }
    {
        ChainReader {
            mem,
            base,
            descriptors,
            index: head,
        }
    }

    // The descriptor where the reader stands.
    pub fn current(self) -> Option<Descriptor>
        ensures { result ≡ link_at self.entry.mem.now self.entry.base.0
            self.entry.descriptors.0 self.entry.index }
    {
        link_at(self.mem, self.base, self.descriptors, self.index)
    }

    // The request of the chain that starts where the reader stands.
    pub fn request(self) -> Result<Asked, NoRequest>
        ensures { result ≡ parsed self.entry.mem.now self.entry.base.0
            self.entry.descriptors.0 self.entry.index }
    {
        parse(self.mem, self.base, self.descriptors, self.index)
    }

    // The reader at the next descriptor.
    pub fn advanced(self) -> ChainReader<'a>
        ensures { (result.mem ≡ self.entry.mem) × (result.base ≡ self.entry.base)
            × (result.descriptors ≡ self.entry.descriptors)
            × (result.index ≡ reader_index (link_at self.entry.mem.now self.entry.base.0
            self.entry.descriptors.0 self.entry.index)) }
    {
        let index = index_after(self.mem, self.base, self.descriptors, self.index);
        ChainReader {
            mem: self.mem,
            base: self.base,
            descriptors: self.descriptors,
            index,
        }
    }
}

// The second descriptor of a chain, by a reader.
pub fn second_link(
    mem: &[u8],
    base: GuestAddr,
    descriptors: GuestAddr,
    head: u16,
) -> Option<Descriptor>
    ensures { result ≡ second_link mem.now base.0 descriptors.0 head }
{
    ChainReader::new(mem, base, descriptors, head)
        .advanced()
        .current()
}

// The request of a chain, by a reader: it is what the device parses.
pub fn parse_chain(
    mem: &[u8],
    base: GuestAddr,
    descriptors: GuestAddr,
    head: u16,
) -> Result<Asked, NoRequest>
    ensures { result ≡ parsed mem.now base.0 descriptors.0 head }
{
    ChainReader::new(mem, base, descriptors, head).request()
}
