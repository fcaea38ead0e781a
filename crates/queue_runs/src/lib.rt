// SPDX-License-Identifier: Apache-2.0 AND BSD-3-Clause
// What holds over every run on the queue: theorems about the definitions of the crates `queue` and `step`. There is no
// code here that a device runs.
#![tactic(auto)]
