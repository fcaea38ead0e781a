// SPDX-License-Identifier: Apache-2.0 AND BSD-3-Clause
// Theorems only: a restored device in the runs of the device, and what was saved, restored and saved again.
#![tactic(auto)]
