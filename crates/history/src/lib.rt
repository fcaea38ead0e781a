// SPDX-License-Identifier: Apache-2.0 AND BSD-3-Clause
// Theorems only: what holds in every run of the device, of calls and of restores.
#![tactic(auto)]
