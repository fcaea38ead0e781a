// SPDX-License-Identifier: Apache-2.0 AND BSD-3-Clause
// A record that has the shape (R3.2), as a type: who holds one need not ask again.
ghost use Rattle.std.specs.Prelude.{◌≡◌, true};
ghost use Rattle.record.specs.Shape.{shaped_of};

use record::Device;

#[derive(Clone, Copy)]
pub struct Shaped {
    pub device: Device,
    pub ghost shape: { shaped_of device ≡ true },
}
