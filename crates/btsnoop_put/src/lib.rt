// The header and a record of a btsnoop recording, put into a lent slice.
#![tactic(auto)]

ghost use Rattle.std.specs.Prelude.{◌≡◌};
ghost use Rattle.std.proofs.lemmas.List.Edits.{sets};
ghost use Rattle.btsnoop_read.specs.Format.{record_of, header};
ghost use Rattle.btsnoop_put.specs.Put.{put_record};

// The header; what would stand past the end is left out.
pub fn put_header(out: &mut [u8], datalink: u32)
    ensures { out.new ≡ sets out.old 0 (header datalink) }
{
    big_endian_write::put_number(out, 0, 8, 0x6274736E6F6F7000);
    big_endian_write::put_number(out, 8, 4, 1);
    big_endian_write::put_number(out, 12, 4, datalink as u64);
}

// A whole record at a position, or nothing where it does not fit. A RecordHead would say the included length too, which is `part`'s.
pub fn put_record(
    out: &mut [u8],
    at: usize,
    original: u32,
    flags: u32,
    drops: u32,
    timestamp: u64,
    part: &[u8],
)
    ensures { out.new ≡ put_record out.old at (record_of original flags drops timestamp part.now) }
{
    let n = out.len();
    if n < 24 {
        return;
    }
    if n - 24 < at {
        return;
    }
    if n - 24 - at < part.len() {
        return;
    }
    big_endian_write::put_number(out, at, 4, original as u64);
    big_endian_write::put_number(out, at + 4, 4, part.len() as u64);
    big_endian_write::put_number(out, at + 8, 4, flags as u64);
    big_endian_write::put_number(out, at + 12, 4, drops as u64);
    big_endian_write::put_number(out, at + 16, 8, timestamp);
    big_endian_write::put_bytes(out, at + 24, part);
}
