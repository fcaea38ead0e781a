// SPDX-License-Identifier: Apache-2.0 AND BSD-3-Clause
// The bytes of the device: the request of 24, the response of 10 and the config of 56.
#![tactic(auto)]

ghost use Rattle.std.specs.Prelude.{◌≡◌, ◌+◌, ◌≤◌, length, drop};
ghost use Rattle.little_endian.specs.Bytes.{little_endian, put};
ghost use Rattle.wire.specs.Types.{Types};
ghost use Rattle.wire.specs.Layout.{request_at, response_bytes, config_fields, config_bytes, new_config};

use little_endian::{copy, from, places, read_u16, read_u64, write_u16, write_u64};
use units::GuestAddr;

// What the guest asks.
#[derive(Clone, Copy)]
pub struct VirtioMemReq {
    pub req_type: u16,
    pub addr: GuestAddr,
    pub nb_blocks: u16,
}

// What a request asks for, by its number (R7.4).
#[derive(Clone, Copy, Debug, PartialEq, Eq)]
pub enum RequestType {
    Plug = 0,
    Unplug = 1,
    UnplugAll = 2,
    State = 3,
}

// A type that no device knows (R9.8).
#[derive(Clone, Copy, Debug, PartialEq, Eq)]
pub struct UnknownType(pub u16);

impl TryFrom<u16> for RequestType {
    type Error = UnknownType;

    ghost try_from_gives = { Types };

    fn try_from(number: u16) -> Result<RequestType, UnknownType> {
        match number {
            0 => Ok(RequestType::Plug),
            1 => Ok(RequestType::Unplug),
            2 => Ok(RequestType::UnplugAll),
            3 => Ok(RequestType::State),
            _ => Err(UnknownType(number)),
        }
    }
}

// What the guest is answered.
#[derive(Clone, Copy)]
pub struct VirtioMemResp {
    pub resp_type: u16,
    pub state: u16,
}

// What the guest reads of the device.
#[derive(Clone, Copy)]
pub struct VirtioMemConfig {
    pub block_size: u64,
    pub node_id: u16,
    pub addr: GuestAddr,
    pub region_size: u64,
    pub usable_region_size: u64,
    pub plugged_size: u64,
    pub requested_size: u64,
}

impl VirtioMemConfig {
    // The device is not placed yet, and nothing is usable or plugged.
    pub fn new(block_size: u64, node_id: u16, region_size: u64, requested_size: u64) -> Self
        ensures { result ≡ new_config block_size node_id region_size requested_size }
    {
        VirtioMemConfig {
            block_size: block_size,
            node_id: node_id,
            addr: GuestAddr(0),
            region_size: region_size,
            usable_region_size: 0,
            plugged_size: 0,
            requested_size: requested_size,
        }
    }
}

// Where a field of the config starts, and how many bytes it has.
#[derive(Clone, Copy)]
pub struct Field(pub usize, pub usize);

// Block size, node, zeros, start, region, usable, plugged, requested.
pub const CONFIG_FIELDS: [Field; 8] = [
    Field(0, 8),
    Field(8, 2),
    Field(10, 6),
    Field(16, 8),
    Field(24, 8),
    Field(32, 8),
    Field(40, 8),
    Field(48, 8),
];

// The constant is the table that the definitions read: no contract can name a constant array, so this one says that the
// two are the same.
pub fn config_fields() -> [Field; 8]
    ensures { result ≡ config_fields }
{
    CONFIG_FIELDS
}

// What is missing of a request reads as zeros.
pub fn read_request(bytes: &[u8], at: usize) -> VirtioMemReq
    ensures { result ≡ request_at bytes.now at }
{
    let rest = from(bytes, at);
    let req_type = read_u16(rest, 0);
    let addr = read_u64(rest, 8);
    let nb_blocks = read_u16(rest, 16);
    VirtioMemReq {
        req_type: req_type,
        addr: GuestAddr(addr),
        nb_blocks: nb_blocks,
    }
}

pub fn write_response(bytes: &mut [u8], at: usize, resp: VirtioMemResp)
    ensures { bytes.new ≡ put bytes.old at (response_bytes resp) }
{
    // The six zeros are the upper bytes of the type as a number of eight.
    write_u64(bytes, at, resp.resp_type as u64);
    if at < places(bytes, 8) {
        write_u16(bytes, at + 8, resp.state);
    }
}

// The lowest bytes of v, as many as its field has.
fn write_field(bytes: &mut [u8], field: Field, v: u64)
    requires { (field.0 + field.1 ≤ length bytes.old) × (field.1 ≤ 8) }
    ensures { bytes.new ≡ put bytes.old field.0 (little_endian field.1 v) }
{
    copy(&mut bytes[field.0..], &v.to_le_bytes()[..field.1]);
}

// From `offset` on, up to the config's end or the buffer's; the rest of the buffer stays.
pub fn read_config(config: VirtioMemConfig, offset: u64, data: &mut [u8])
    ensures { «data».new ≡ put «data».old 0 (drop offset (config_bytes config)) }
{
    let past = 56 <= offset;
    if past {
        return;
    }
    // Beside the table and not in it: the table is constant, and its values are those of one config.
    let values: [u64; 8] = [
        config.block_size,
        config.node_id as u64,
        0,
        config.addr.0,
        config.region_size,
        config.usable_region_size,
        config.plugged_size,
        config.requested_size,
    ];
    let mut bytes: [u8; 56] = [0; 56];
    for (k, field) in CONFIG_FIELDS.iter().enumerate() {
        write_field(&mut bytes, *field, values[k]);
    }
    copy(data, from(&bytes, offset as usize));
}
