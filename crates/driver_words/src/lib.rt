// SPDX-License-Identifier: Apache-2.0 AND BSD-3-Clause
// What the guest's side reads and proposes as words, for callers that have no enums. A slice without room for all
// words is refused with 16, and a refused call writes nothing.
#![tactic(auto)]

ghost use Rattle.std.specs.Prelude.{◌≡◌};
ghost use Rattle.bitmap.specs.Blocks.{blocks};
ghost use Rattle.refusal.specs.Refusal.{code};
ghost use Rattle.driver_words.specs.Told.{ToldWords, ResponseTold, ConfigTold, PlanTold};
ghost use Rattle.driver_words.specs.Told.{response_words, config_words, plug_words};

use driver::{Plug, plan, read_config, read_response};
use refusal::Refusal;
use wire::{VirtioMemConfig, VirtioMemResp};
use words::write_words;

// Tells what was read as N words. 16 where there is no room for them, before what it was refused with.
fn tell<const N: usize>(read: Result<[u64; N], Refusal>, words: &mut [u64]) -> Result<(), Refusal>
    ensures { ToldWords N read.entry words.old words.new (code result) }
{
    if words.len() < N {
        return Err(Refusal::BadBytes);
    }
    write_words(words, &read?);
    Ok(())
}

// A response as two words: type, state.
fn response_words(v: VirtioMemResp) -> [u64; 2]
    ensures { result ≡ response_words v }
{
    [u64::from(v.resp_type), u64::from(v.state)]
}

// A config as seven words: block size, node, start, region, usable, plugged and requested size, as a record begins.
fn config_words(c: VirtioMemConfig) -> [u64; 7]
    ensures { result ≡ config_words c }
{
    [
        c.block_size,
        u64::from(c.node_id),
        c.addr.0,
        c.region_size,
        c.usable_region_size,
        c.plugged_size,
        c.requested_size,
    ]
}

// A plug as two words: guest address, blocks.
fn plug_words(plug: Plug) -> [u64; 2]
    ensures { result ≡ plug_words plug }
{
    [plug.addr.0, u64::from(plug.nb_blocks)]
}

// Reads the 10 bytes of a response. 16.
pub fn tell_response(bytes: &[u8], words: &mut [u64]) -> Result<(), Refusal>
    ensures { ResponseTold bytes.now words.old words.new (code result) }
{
    tell(read_response(bytes).map(response_words), words)
}

// Reads the 56 bytes of a config. 16.
pub fn tell_config(bytes: &[u8], words: &mut [u64]) -> Result<(), Refusal>
    ensures { ConfigTold bytes.now words.old words.new (code result) }
{
    tell(read_config(bytes).map(config_words), words)
}

// Proposes a plug from the 56 bytes of a config and a bitmap. 16, 12, 11, 17. The bitmap is looked at only where there
// is room for the plug.
pub fn tell_plan(config: &[u8], bitmap: &[u8], words: &mut [u64]) -> Result<(), Refusal>
    ensures { PlanTold config.now (blocks bitmap.now) words.old words.new (code result) }
{
    let c = read_config(config)?;
    let lacks_room = words.len() < 2;
    if lacks_room {
        return Err(Refusal::BadBytes);
    }
    tell(plan(c, bitmap).map(plug_words), words)
}
