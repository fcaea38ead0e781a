// SPDX-License-Identifier: Apache-2.0 AND BSD-3-Clause
// The lent map table, one row for each map region (R8.3). Only `rows_in`, `row_at`, `put_row` and who counts words by
// `ROW_WORDS` speak of words.
#![tactic(auto)]

ghost use Rattle.std.specs.Prelude.{◌≡◌, ◌+◌, min, length, set};
ghost use Rattle.rows.specs.Rows.{rows_in, rows_of, written, filled_table, laid_table};
ghost use Rattle.rows.specs.Rows.{row_at, mapping_of, first_unmapped};

use units::{HostAddr, RegionOffset};

// A row's words (R8.3). Mapped is 0 for no and anything else for yes.
#[derive(Clone, Copy)]
pub struct MapRow {
    pub slot: u64,
    pub mapped: u64,
    pub host: HostAddr,
}

// How many words a row is.
pub const ROW_WORDS: u64 = 3;

// How many whole rows so many words make.
pub fn rows_in(words: usize) -> u64
    ensures { result ≡ rows_in words }
{
    words as u64 / ROW_WORDS
}

// How many rows the table holds.
#[tactic(auto, using(crate::proofs::Words::count))]
fn row_count(table: &[u64]) -> u64
    ensures { result ≡ length (rows_of table.now) }
{
    rows_in(table.len())
}

// A row; past the table, where no request looks (`row_in_table` of `step`), slot 0 and not mapped (R8.5).
#[tactic(auto, using(crate::proofs::Words::count))]
fn row_at(table: &[u64], row: u64) -> MapRow
    ensures { result ≡ row_at (rows_of table.now) row }
{
    if row_count(table) <= row {
        return MapRow {
            slot: 0,
            mapped: 0,
            host: HostAddr(0),
        };
    }
    let at = 3 * row as usize;
    MapRow {
        slot: table[at],
        mapped: table[at + 1],
        host: HostAddr(table[at + 2]),
    }
}

// Writes a row, if it exists.
#[tactic(auto, using(crate::proofs::Words::count))]
fn put_row(table: &mut [u64], row: u64, to: MapRow)
    ensures { table.new ≡ written table.old (set (rows_of table.old) row to) }
{
    if row_count(table) <= row {
        return;
    }
    let at = 3 * row as usize;
    table[at] = to.slot;
    table[at + 1] = to.mapped;
    table[at + 2] = to.host.0;
}

// Where the rows up to `last` that exist end.
fn end_of(table: &[u64], last: u64) -> u64
    ensures { result ≡ min (last + 1) (length (rows_of table.now)) }
{
    let rows = row_count(table);
    if last < rows { last + 1 } else { rows }
}

// The slot of a row, and 0 past the table.
pub fn slot_of(table: &[u64], row: u64) -> u64
    ensures { result ≡ (row_at (rows_of table.now) row).slot }
{
    row_at(table, row).slot
}

// Whether a row is mapped, and where.
pub fn mapping_of(table: &[u64], row: u64) -> Option<HostAddr>
    ensures { result ≡ mapping_of (rows_of table.now) row }
{
    let found = row_at(table, row);
    let unmapped = found.mapped == 0;
    if unmapped {
        return None;
    }
    let host = found.host;
    Some(host)
}

// The first row from `first` to `last` that is not mapped: the loop yields its index by `break` (R20.7), which no `for`
// does.
pub fn first_unmapped(table: &[u64], first: u64, last: u64) -> Option<u64>
    ensures { result ≡ first_unmapped (rows_of table.now) first last }
{
    let end = end_of(table, last);
    let mut row = first;
    loop {
        if end <= row {
            break None;
        }
        let unmapped = row_at(table, row).mapped == 0;
        if unmapped {
            break Some(row);
        }
        row += 1;
    }
}

// Maps the rows from `first` to `last`, one after the other from `host` on (R6.7). The device has tested that no sum
// passes 2^64 - 1 (R1.9).
pub fn fill(table: &mut [u64], first: u64, last: u64, host: HostAddr)
    ensures { table.new ≡ filled_table table.old first last host.0 }
{
    let end = end_of(table, last);
    for row in first..end {
        let slot = slot_of(table, row);
        let at = RegionOffset::of_map_region(row - first).host_from(host);
        put_row(
            table,
            row,
            MapRow {
                slot: slot,
                mapped: 1,
                host: at,
            },
        );
    }
}

// Gives row j slot j of the list, not mapped (R5.2).
pub fn lay(table: &mut [u64], slots: &[u32])
    ensures { table.new ≡ laid_table table.old slots.now }
{
    for (j, slot) in slots.iter().enumerate() {
        put_row(
            table,
            j as u64,
            MapRow {
                slot: u64::from(*slot),
                mapped: 0,
                host: HostAddr(0),
            },
        );
    }
}
