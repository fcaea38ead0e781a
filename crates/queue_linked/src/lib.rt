// SPDX-License-Identifier: Apache-2.0 AND BSD-3-Clause
// What holds for a program that links the library and serves a queue by it: theorems about the promises of the exports.
// There is no code here that a device runs.
#![tactic(auto)]
