// SPDX-License-Identifier: Apache-2.0 AND BSD-3-Clause
// Numbers at a place in bytes, lowest byte first: what is missing reads as zeros, and what has no place is not written.
#![tactic(auto)]

ghost use Rattle.std.specs.Prelude.{◌≡◌, ◌-◌, length, drop};
ghost use Rattle.little_endian.specs.Bytes.{value, little_endian, part, put};

// The bytes from `at` on, with no sum that could pass the largest number.
pub fn from(bytes: &[u8], at: usize) -> &[u8]
    ensures { result.now ≡ drop at bytes.now }
{
    if at < bytes.len() {
        &bytes[at..]
    } else {
        &bytes[..0]
    }
}

// The bytes of `what` from the start on; none past the end.
pub fn copy(bytes: &mut [u8], what: &[u8])
    ensures { bytes.new ≡ put bytes.old 0 what.now }
{
    let n = bytes.len().min(what.len());
    bytes[..n].copy_from_slice(&what[..n]);
}

// At how many places `width` bytes are all there, of no bytes as of one. Where a caller has made a wider test, the
// compiler drops this one.
pub fn places(bytes: &[u8], width: usize) -> usize
    ensures { result ≡ length bytes.now - (width - 1) }
{
    if width == 0 {
        return bytes.len();
    }
    if bytes.len() < width {
        return 0;
    }
    bytes.len() - width + 1
}

// The N bytes of a number from `at` on: those that are missing are zeros. The test is the one that a loop over whole
// bytes makes too (`bitmap`), so the compiler drops it there.
fn bytes_at<const N: usize>(bytes: &[u8], at: usize) -> [u8; N]
    ensures { value result ≡ value (part bytes.now at N) }
{
    let mut found = [0; N];
    if at < places(bytes, N) {
        found.copy_from_slice(&bytes[at..at + N]);
    } else {
        copy(&mut found, from(bytes, at));
    }
    found
}

pub fn read_u16(bytes: &[u8], at: usize) -> u16
    ensures { result ≡ value (part bytes.now at 2) }
{
    u16::from_le_bytes(bytes_at(bytes, at))
}

pub fn read_u32(bytes: &[u8], at: usize) -> u32
    ensures { result ≡ value (part bytes.now at 4) }
{
    u32::from_le_bytes(bytes_at(bytes, at))
}

pub fn read_u64(bytes: &[u8], at: usize) -> u64
    ensures { result ≡ value (part bytes.now at 8) }
{
    u64::from_le_bytes(bytes_at(bytes, at))
}

// The N bytes of a number from `at` on; none past the end.
fn put_at<const N: usize>(bytes: &mut [u8], at: usize, number: [u8; N])
    ensures { bytes.new ≡ put bytes.old at number.entry }
{
    if at < places(bytes, N) {
        bytes[at..at + N].copy_from_slice(&number);
    } else if at < bytes.len() {
        copy(&mut bytes[at..], &number);
    }
}

pub fn write_u16(bytes: &mut [u8], at: usize, v: u16)
    ensures { bytes.new ≡ put bytes.old at (little_endian 2 v) }
{
    put_at::<2>(bytes, at, v.to_le_bytes());
}

pub fn write_u32(bytes: &mut [u8], at: usize, v: u32)
    ensures { bytes.new ≡ put bytes.old at (little_endian 4 v) }
{
    put_at::<4>(bytes, at, v.to_le_bytes());
}

pub fn write_u64(bytes: &mut [u8], at: usize, v: u64)
    ensures { bytes.new ≡ put bytes.old at (little_endian 8 v) }
{
    put_at::<8>(bytes, at, v.to_le_bytes());
}
