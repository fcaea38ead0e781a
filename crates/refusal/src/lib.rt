// SPDX-License-Identifier: Apache-2.0 AND BSD-3-Clause
// Why a call is refused: a variant for each number of the law (R1).
#![tactic(auto)]

ghost use Rattle.std.specs.Prelude.{◌≡◌};
ghost use Rattle.refusal.specs.Refusal.{number, code};
ghost use Rattle.refusal.specs.Numbers.{Numbers};

// What a refused call is refused for, by the rule R1 that says when.
#[derive(Clone, Copy, Debug, PartialEq, Eq)]
pub enum Refusal {
    // R1.1: the requested size is above the region, or no whole blocks; or there is no capacity.
    WrongSize = 1,
    // R1.2: the capacity is above 1 TiB.
    CapacityTooLarge = 2,
    // R1.3: the slots are not one for each map region, or the range has not the region's size.
    WrongRange = 3,
    // R1.4: the region cannot start there.
    WrongStart = 4,
    // R1.5: the device is in no place.
    NotPlaced = 5,
    // R1.6: the device is in its place already.
    AlreadyPlaced = 6,
    // R1.7: a host call is pending.
    CallPending = 7,
    // R1.8: nothing is pending that the host could answer.
    NothingPending = 8,
    // R1.9: what the host created would pass 2^64 - 1.
    HostPastTop = 9,
    // R1.10: the host could not create what it was asked for.
    CreationFailed = 10,
    // R1.11: the bitmap or the map table is too short.
    TooShort = 11,
    // R1.12: the record has not the shape, or counts less than is to be unplugged.
    NoShape = 12,
    // R1.13: a line of a trace is bad.
    BadLine = 13,
    // R1.14: a ring of the queue is not wholly inside guest memory.
    RingOutside = 14,
    // R1.15: the available ring's index is more than 128 ahead.
    RingOverfull = 15,
    // R1.16: bytes that are too few, or no response or config.
    BadBytes = 16,
    // R1.17: no plug of one block is legal.
    NothingToPlug = 17,
    // R1.18: what is to be saved, read, moved or restored is no state, or does not fit.
    NoState = 18,
    // R1.19: a save record of a later form.
    LaterForm = 19,
}

impl Refusal {
    // The number that the law gives it.
    pub fn number(self) -> u64
        ensures { result ≡ number self }
    {
        self as u64
    }
}

// A number that is no refusal's.
#[derive(Clone, Copy, Debug, PartialEq, Eq)]
pub struct UnknownNumber(pub u64);

impl TryFrom<u64> for Refusal {
    type Error = UnknownNumber;

    ghost try_from_gives = { Numbers };

    fn try_from(number: u64) -> Result<Refusal, UnknownNumber> {
        match number {
            1 => Ok(Refusal::WrongSize),
            2 => Ok(Refusal::CapacityTooLarge),
            3 => Ok(Refusal::WrongRange),
            4 => Ok(Refusal::WrongStart),
            5 => Ok(Refusal::NotPlaced),
            6 => Ok(Refusal::AlreadyPlaced),
            7 => Ok(Refusal::CallPending),
            8 => Ok(Refusal::NothingPending),
            9 => Ok(Refusal::HostPastTop),
            10 => Ok(Refusal::CreationFailed),
            11 => Ok(Refusal::TooShort),
            12 => Ok(Refusal::NoShape),
            13 => Ok(Refusal::BadLine),
            14 => Ok(Refusal::RingOutside),
            15 => Ok(Refusal::RingOverfull),
            16 => Ok(Refusal::BadBytes),
            17 => Ok(Refusal::NothingToPlug),
            18 => Ok(Refusal::NoState),
            19 => Ok(Refusal::LaterForm),
            _ => Err(UnknownNumber(number)),
        }
    }
}

// What a call is told as, for callers that have no enums: 0 where it was done (R1.0), and else why it was refused.
pub fn code(done: Result<(), Refusal>) -> u64
    ensures { result ≡ code done }
{
    match done {
        Ok(()) => 0,
        Err(refusal) => refusal.number(),
    }
}
