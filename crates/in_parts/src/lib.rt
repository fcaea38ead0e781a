// SPDX-License-Identifier: Apache-2.0 AND BSD-3-Clause
// Theorems only: one big plug, or the same range in parts.
#![tactic(auto)]
