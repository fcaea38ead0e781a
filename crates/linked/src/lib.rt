// SPDX-License-Identifier: Apache-2.0 AND BSD-3-Clause
// What holds of every run of the exported functions: theorems about the promises of the crate `jambcopper`. There is no
// code here that a device runs.
#![tactic(auto)]
