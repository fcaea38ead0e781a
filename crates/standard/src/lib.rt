// SPDX-License-Identifier: Apache-2.0 AND BSD-3-Clause
// Theorems only: what the standard asks of the device.
#![tactic(auto)]
