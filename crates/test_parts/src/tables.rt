// SPDX-License-Identifier: Apache-2.0 AND BSD-3-Clause
// rows.txt: what is laid into a map table, filled in and found.
use super::numbers_of;
use forms::put_form;
use units::HostAddr;

fn slot(n: u64) -> u32 {
    (n % 4294967296) as u32
}

fn put_found(out: &mut [u8], found: Option<u64>) -> usize {
    match found {
        Some(n) => put_form(out, b"#", &[n]),
        None => put_form(out, b"none", &[]),
    }
}

// The table is the first numbers of the row, so many of 14; a call that changes it is answered by all 14.
pub fn answer(out: &mut [u8], call: &str) -> usize {
    let mut words = numbers_of(call);
    let [a, b, c] = [words[15], words[16], words[17]];
    let lent = words[14] as usize;
    if 14 < lent {
        return 0;
    }
    let table = &mut words[..lent];
    // A call's first letter is the table's own text, so it is matched as it stands.
    match call.as_bytes().first() {
        Some(b'c') => return put_found(out, Some(rows::rows_in(table.len()))),
        Some(b'm') => return put_found(out, rows::mapping_of(table, a).map(|host| host.0)),
        Some(b's') => return put_found(out, Some(rows::slot_of(table, a))),
        Some(b'u') => return put_found(out, rows::first_unmapped(table, a, b)),
        Some(b'l') => rows::lay(table, &[slot(a), slot(b), slot(c)]),
        Some(b'f') => rows::fill(table, a, b, HostAddr(c)),
        _ => return put_found(out, None),
    }
    put_form(out, b"# # # | # # # | # # # | # # # | # #", &words)
}
