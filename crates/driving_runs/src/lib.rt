// SPDX-License-Identifier: Apache-2.0 AND BSD-3-Clause
// Theorems only: what the driver's half proposes, in every run of the device.
#![tactic(auto)]
