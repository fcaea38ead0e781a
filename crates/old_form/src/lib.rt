// SPDX-License-Identifier: Apache-2.0 AND BSD-3-Clause
// Save records of the old form, one byte a block, 0 or 1, and both moves between the forms. A move goes through a
// packed bitmap that is lent for it, so that there is one writer and one reader of texts.
#![tactic(auto)]

ghost use Rattle.std.specs.Prelude.{◌≡◌, ◌++◌, ◌≤◌, ◌↔◌, IsTrue, EachIndex, slice_index, take, drop, length};
ghost use Rattle.bitmap.specs.Blocks.{blocks};
ghost use Rattle.save.specs.Reading.{HoldsBlocks};
ghost use Rattle.old_form.specs.Old.{old_of, bits_of};
ghost use Rattle.old_form.specs.Moves.{ToNew, ToOld};

use refusal::Refusal;
use save::{BITMAP, Fields, read, shape_ok, write};
use units::MemTool;

// Whether each byte is 0 or 1.
fn is_old(old: &[u8]) -> bool
    ensures { IsTrue result ↔ EachIndex old.now (λ k. slice_index old.now k ≤ 1) }
{
    old.iter().all(|x| *x <= 1)
}

// Puts a bit for each byte into a bitmap.
fn pack(old: &[u8], bitmap: &mut [u8])
    requires { length old.now ≤ length (blocks bitmap.old) }
    ensures { HoldsBlocks (bits_of old.now) bitmap.old bitmap.new }
{
    for (i, x) in old.iter().enumerate() {
        bitmap::set_range(bitmap, i, 1, *x == 1);
    }
}

// Puts a byte for each of the first n blocks of a bitmap.
fn unpack(bitmap: &[u8], n: usize, old: &mut [u8])
    requires { (n ≤ length (blocks bitmap.now)) × (n ≤ length old.old) }
    ensures { old.new ≡ old_of (take n (blocks bitmap.now)) ++ drop n old.old }
{
    for i in 0..n {
        old[i] = u8::from(bitmap::is_set(bitmap, i));
    }
}

// Moves old bytes, with the fields that they have no place for, into a text. 11, 18.
pub fn to_new(f: Fields, old: &[u8], scratch: &mut [u8], out: &mut [u8]) -> Result<u64, Refusal>
    ensures { ToNew f old.now scratch.old scratch.new
        out.old out.new result }
{
    if scratch.len() < BITMAP {
        return Err(Refusal::TooShort);
    }
    if !shape_ok(f) {
        return Err(Refusal::NoState);
    }
    if old.len() as u64 != MemTool::blocks_in(f.region, f.block) {
        return Err(Refusal::NoState);
    }
    if !is_old(old) {
        return Err(Refusal::NoState);
    }
    pack(old, scratch);
    write(f, &scratch[..], out)
}

// Moves a text into old bytes, and gives the fields that they have no place for. 11, 19, 18.
pub fn to_old(s: &[u8], scratch: &mut [u8], old: &mut [u8]) -> Result<Fields, Refusal>
    ensures { ToOld s.now scratch.old scratch.new
        old.old old.new result }
{
    let f = read(s, old.len(), scratch)?;
    let all = MemTool::blocks_in(f.region, f.block);
    unpack(&scratch[..], all as usize, old);
    Ok(f)
}
