// A recording of L1 by column, written straight into the caller's slice.
// A slice and a position stay two arguments: a struct of both would owe each function a clause more (`text`).
#![tactic(auto)]

ghost use Rattle.std.specs.Prelude.{◌≡◌, ◌+◌, ◌*◌, ◌^◌, ◌<◌, ◌≤◌, true, ◌++◌, length};
ghost use Rattle.std.proofs.lemmas.List.Edits.{sets};
ghost use Rattle.big_endian.specs.BigEndian.{be};
ghost use Rattle.btsnoop_read.specs.Read.{records_in};
ghost use Rattle.btsnoop_columns.specs.Format.{difference as difference_of, places, numbers, column, differenced};
ghost use Rattle.btsnoop_columns.specs.Answer.{to_columns_of, to_columns_left};
ghost use Rattle.to_columns.specs.Answer.{to_columns_reply};
ghost use Rattle.to_columns.specs.Cells.{cell_of, cell_record};

use btsnoop_read::RecordHead;
use refusal::Refusal;

// What a column has of each record. A type with an impl for each of the five, for a trait, would be no plainer than five arms.
#[derive(Clone, Copy)]
enum Cell {
    Lengths,
    Flags,
    Drops,
    Timestamps,
    Bytes,
}

fn difference(t: u64, before: u64) -> u64
    ensures { result ≡ difference_of t before }
{
    t.wrapping_sub(before)
}

// A column's part of a record, and the position behind it.
fn put_cell(
    cell: Cell,
    head: RecordHead,
    before: u64,
    part: &[u8],
    out: &mut [u8],
    at: usize,
) -> usize
    requires { at + length (cell_of cell (cell_record head before part.now)) ≤ length out.old }
    ensures bytes { out.new ≡ sets out.old at (cell_of cell (cell_record head before part.now)) }
    ensures behind { result ≡ at + length (cell_of cell (cell_record head before part.now)) }
{
    match cell {
        Cell::Lengths => {
            big_endian_write::put_number(out, at, 4, head.original as u64);
            big_endian_write::put_number(out, at + 4, 4, part.len() as u64);
            at + 8
        }
        Cell::Flags => {
            big_endian_write::put_number(out, at, 4, head.flags as u64);
            at + 4
        }
        Cell::Drops => {
            big_endian_write::put_number(out, at, 4, head.drops as u64);
            at + 4
        }
        Cell::Timestamps => {
            big_endian_write::put_number(out, at, 8, difference(head.timestamp, before));
            at + 8
        }
        Cell::Bytes => {
            big_endian_write::put_bytes(out, at, part);
            at + part.len()
        }
    }
}

// A column of the records, and the position behind it.
fn put_column(s: &[u8], cell: Cell, out: &mut [u8], at: usize) -> usize
    requires { at + length (column (cell_of cell) (differenced 0 (records_in s.now).records)) ≤ length out.old }
    ensures bytes { out.new ≡ sets out.old at (column (cell_of cell) (differenced 0 (records_in s.now).records)) }
    ensures behind { result ≡ at + length (column (cell_of cell) (differenced 0 (records_in s.now).records)) }
{
    let mut to: usize = at;
    let mut before: u64 = 0;
    let mut i: usize = 16;
    while let Some(head) = btsnoop_read::record_at(s, i) {
        let start = i + 24;
        let end = start + (head.included as usize);
        to = put_cell(cell, head, before, &s[start..end], out, to);
        before = head.timestamp;
        i = end;
    }
    to
}

// A pair of offset and length.
fn put_pair(out: &mut [u8], at: usize, offset: usize, size: usize)
    requires { at < 56 }
    ensures { out.new ≡ sets out.old at (be 4 offset ++ be 4 size) }
{
    big_endian_write::put_number(out, at, 4, offset as u64);
    big_endian_write::put_number(out, at + 4, 4, size as u64);
}

// The five pairs, of n records with b bytes.
fn put_places(out: &mut [u8], n: usize, b: usize)
    requires { 56 + 24 * n + b < 2 ^ 32 }
    ensures { out.new ≡ sets out.old 16 (numbers (places n b)) }
{
    put_pair(out, 16, 56, 8 * n);
    put_pair(out, 24, 56 + 8 * n, 4 * n);
    put_pair(out, 32, 56 + 12 * n, 4 * n);
    put_pair(out, 40, 56 + 16 * n, 8 * n);
    put_pair(out, 48, 56 + 24 * n, b);
}

// 11, 12, 21, 10 in this order; where it refuses nothing is written.
pub fn to_columns(s: &[u8], out: &mut [u8]) -> Result<usize, Refusal>
    ensures reply { to_columns_reply result ≡ to_columns_of s.now out.old }
    ensures bytes { out.new ≡ to_columns_left s.now out.old }
{
    if !btsnoop_read::is_header(s) {
        return Err(Refusal::Header);
    }
    let Ok(m) = btsnoop_measure::measure_all(s) else {
        return Err(Refusal::Record);
    };
    let n = s.len();
    if 4_294_967_255 < n {
        return Err(Refusal::Columns);
    }
    if out.len() < n + 40 {
        return Err(Refusal::Space);
    }
    let datalink = big_endian::u32_at(s, 12);
    btsnoop_put::put_header(out, datalink);
    put_places(out, m.records, m.bytes);
    let flags = put_column(s, Cell::Lengths, out, 56);
    let drops = put_column(s, Cell::Flags, out, flags);
    let timestamps = put_column(s, Cell::Drops, out, drops);
    let bytes = put_column(s, Cell::Timestamps, out, timestamps);
    put_column(s, Cell::Bytes, out, bytes);
    Ok(n + 40)
}
