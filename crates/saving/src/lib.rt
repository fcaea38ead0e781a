// SPDX-License-Identifier: Apache-2.0 AND BSD-3-Clause
// A device's state as a save record: saved from a record and its bitmap, and restored onto a placed device that has
// nothing plugged.
#![tactic(auto)]

ghost use Rattle.std.specs.Prelude.{◌≡◌};
ghost use Rattle.bitmap.specs.Blocks.{blocks};
ghost use Rattle.saving.specs.Saving.{entry_refusal, fields_in, saved_length, Saves};
ghost use Rattle.saving.specs.Restoring.{fits_on, RestoresText};

use record::{Device, is_idle, shaped};
use refusal::Refusal;
use runs::lay_runs;
use save::{Fields, check, is_short, text_length, write};
use units::MemTool;

// Why a record is not saved and not restored: 12, 7.
fn entry_refusal(d: Device) -> Result<(), Refusal>
    ensures { result ≡ entry_refusal d }
{
    if !shaped(d) {
        return Err(Refusal::NoShape);
    }
    let pending = d.pending;
    if !is_idle(pending) {
        return Err(Refusal::CallPending);
    }
    Ok(())
}

// What a save record says of a device.
fn fields_in(d: Device) -> Fields
    ensures { result ≡ fields_in d }
{
    let c = d.config;
    Fields {
        block: c.block_size,
        start: c.addr.0,
        region: c.region_size,
        requested: c.requested_size,
        usable: c.usable_region_size,
        plugged: c.plugged_size,
    }
}

// How long the device's text is. 12, 7, 11, 18.
pub fn save_length(d: Device, bitmap: &[u8]) -> Result<u64, Refusal>
    ensures { result ≡ saved_length d bitmap.now }
{
    entry_refusal(d)?;
    text_length(fields_in(d), bitmap)
}

// Saves the device: its text goes into a buffer. 12, 7, 11, 18.
pub fn save(d: Device, bitmap: &[u8], out: &mut [u8]) -> Result<u64, Refusal>
    ensures { Saves d bitmap.now out.old out.new result }
{
    entry_refusal(d)?;
    write(fields_in(d), bitmap, out)
}

// Whether a state with these fields may be laid on a device: placed, of the same start and region, with at least as
// much usable, and nothing plugged.
#[tactic(auto, unfolding(crate::specs::Restoring::fits_on))]
fn fits_on(d: Device, bitmap: &[u8], f: Fields) -> bool
    ensures { result ≡ fits_on d (blocks bitmap.now) f }
{
    let c = d.config;
    let all = MemTool::blocks_in(c.region_size, c.block_size);
    d.placed
        && f.start == c.addr.0
        && f.region == c.region_size
        && f.usable <= c.usable_region_size
        && c.plugged_size == 0
        && bitmap::all_in_state(bitmap, 0, all as usize, false)
}

// Restores a state: its bits, requested and plugged size are laid on a device. 12, 7, 11, 19, 18.
pub fn restore(d: Device, bitmap: &mut [u8], s: &[u8]) -> Result<Device, Refusal>
    ensures { RestoresText d s.now bitmap.old bitmap.new result }
{
    entry_refusal(d)?;
    let c = d.config;
    if is_short(
        bitmap.len(),
        MemTool::blocks_in(c.region_size, c.block_size),
    ) {
        return Err(Refusal::TooShort);
    }
    let found = check(s)?;
    let f = found.fields;
    if !fits_on(d, &bitmap[..], f) {
        return Err(Refusal::NoState);
    }
    lay_runs(s, found.runs, bitmap);
    let mut laid = d;
    laid.config.requested_size = f.requested;
    laid.config.plugged_size = f.plugged;
    Ok(laid)
}
