// A btsnoop recording of events, written into a lent slice. The events stand one after another in one slice; what a record says of
// each comes from a slice of heads, or from three slices. Both are one writer, that takes the heads one at a time from what the caller
// lends: a slice of all together would be copied for it.
#![tactic(auto)]

ghost use Rattle.std.specs.Prelude.{◌≡◌, true, List, ◌∷◌, ◌+◌, ◌*◌, ◌<◌, ◌≤◌, length, drop};
ghost use Rattle.std.proofs.lemmas.List.Edits.{sets};
ghost use Rattle.wire.specs.Wire.{write_reply, writing, written};
ghost use Rattle.btsnoop_read.specs.Format.{records_bytes, recording_bytes};
ghost use Rattle.btsnoop_write.specs.Events.{is_read, event_records, events_of_form};
ghost use Rattle.btsnoop_write.specs.declared.EventHead.{EventHead};
ghost use Rattle.btsnoop_write.specs.Heads.{lengths, drops, timestamps, headed};

use refusal::Refusal;

// What a record says of its event.
#[derive(Clone, Copy)]
pub struct EventHead {
    pub length: u16,
    pub drops: u32,
    pub timestamp: u64,
}

// ---- the heads

trait HeadList {
    ghost heads: { Self → List EventHead };

    fn count(&self) -> usize
        ensures { result ≡ length (heads self.now) };

    fn at(&self, i: usize) -> EventHead
        requires { i < length (heads self.now) }
        ensures { drop i (heads self.now) ≡ result ∷ drop (i + 1) (heads self.now) };
}

#[derive(Clone, Copy)]
struct Listed<'a> {
    heads: &'a [EventHead],
}

impl HeadList for Listed<'_> {
    ghost heads = { λ l. l.heads.now };

    fn count(&self) -> usize {
        self.heads.len()
    }

    fn at(&self, i: usize) -> EventHead {
        self.heads[i]
    }
}

// The head i has the length i, the drops i and the timestamp i.
#[derive(Clone, Copy)]
struct Columns<'a> {
    lengths: &'a [u16],
    drops: &'a [u32],
    timestamps: &'a [u64],
    ghost same_drops: { length lengths.now ≡ length drops.now },
    ghost same_timestamps: { length lengths.now ≡ length timestamps.now },
}

impl HeadList for Columns<'_> {
    ghost heads = { λ c. headed c.lengths.now c.drops.now c.timestamps.now };

    fn count(&self) -> usize {
        self.lengths.len()
    }

    fn at(&self, i: usize) -> EventHead {
        EventHead {
            length: self.lengths[i],
            drops: self.drops[i],
            timestamp: self.timestamps[i],
        }
    }
}

// ---- the writer

// Whether the bytes are an event that document 01 reads.
pub fn is_read(s: &[u8]) -> bool
    ensures { result ≡ is_read s.now }
{
    if let Some(_) = hci_read::read(s) {
        return true;
    }
    matches!(completed_packets::read(s), Some(_))
}

// Whether the parts make the bytes, and each is an event.
fn of_form<H: HeadList>(events: &[u8], heads: &H) -> bool
    ensures { result ≡ events_of_form events.now (lengths (H.heads heads.now)) (drops (H.heads heads.now)) (timestamps (H.heads heads.now)) }
{
    let mut from: usize = 0;
    // std's iterators have no code that the program of all libraries can name.
    for i in 0..heads.count() {
        let size = heads.at(i).length as usize;
        if events.len() - from < size {
            return false;
        }
        let end = from + size;
        if !is_read(&events[from..end]) {
            return false;
        }
        from = end;
    }
    from == events.len()
}

// The records, behind the header.
fn put_records<H: HeadList>(events: &[u8], heads: &H, out: &mut [u8])
    requires form { events_of_form events.now (lengths (H.heads heads.now)) (drops (H.heads heads.now)) (timestamps (H.heads heads.now)) ≡ true }
    requires room { 16 + 24 * length (H.heads heads.now) + length events.now ≤ length out.old }
    ensures { out.new ≡ sets out.old 16 (records_bytes (event_records events.now (lengths (H.heads heads.now)) (drops (H.heads heads.now)) (timestamps (H.heads heads.now)))) }
{
    let mut from: usize = 0;
    for i in 0..heads.count() {
        let head = heads.at(i);
        let end = from + (head.length as usize);
        btsnoop_put::put_record(
            out,
            16 + 24 * i + from,
            head.length as u32,
            3,
            head.drops,
            head.timestamp,
            &events[from..end],
        );
        from = end;
    }
}

fn write_heads<H: HeadList>(events: &[u8], heads: &H, out: &mut [u8]) -> Result<usize, Refusal>
    ensures reply { write_reply result ≡ writing (events_of_form events.now (lengths (H.heads heads.now)) (drops (H.heads heads.now)) (timestamps (H.heads heads.now))) (recording_bytes 1001 (event_records events.now (lengths (H.heads heads.now)) (drops (H.heads heads.now)) (timestamps (H.heads heads.now)))) out.old }
    ensures bytes { out.new ≡ written (events_of_form events.now (lengths (H.heads heads.now)) (drops (H.heads heads.now)) (timestamps (H.heads heads.now))) (recording_bytes 1001 (event_records events.now (lengths (H.heads heads.now)) (drops (H.heads heads.now)) (timestamps (H.heads heads.now)))) out.old }
{
    if !of_form(events, heads) {
        return Err(Refusal::Packet);
    }
    let n = heads.count();
    let bytes = events.len();
    let room = out.len();
    if room < 16 {
        return Err(Refusal::Space);
    }
    if room - 16 < bytes {
        return Err(Refusal::Space);
    }
    if (room - 16 - bytes) / 24 < n {
        return Err(Refusal::Space);
    }
    btsnoop_put::put_header(out, 1001);
    put_records(events, heads, out);
    Ok(16 + 24 * n + bytes)
}

// ---- what callers write

// Writes the recording, of datalink 1001, of events that stand one after another, to the start of a slice: 9 where one is no event
// or their lengths are not those of the bytes, 10 where it does not fit, and then nothing is written.
pub fn write(events: &[u8], heads: &[EventHead], out: &mut [u8]) -> Result<usize, Refusal>
    ensures reply { write_reply result ≡ writing (events_of_form events.now (lengths heads.now) (drops heads.now) (timestamps heads.now)) (recording_bytes 1001 (event_records events.now (lengths heads.now) (drops heads.now) (timestamps heads.now))) out.old }
    ensures bytes { out.new ≡ written (events_of_form events.now (lengths heads.now) (drops heads.now) (timestamps heads.now)) (recording_bytes 1001 (event_records events.now (lengths heads.now) (drops heads.now) (timestamps heads.now))) out.old }
{
    write_heads(events, &Listed { heads }, out)
}

// The same from the lengths, the drops and the timestamps; 9 also where there are not as many of each.
pub fn write_columns(
    events: &[u8],
    lengths: &[u16],
    drops: &[u32],
    timestamps: &[u64],
    out: &mut [u8],
) -> Result<usize, Refusal>
    ensures reply { write_reply result ≡ writing (events_of_form events.now lengths.now drops.now timestamps.now) (recording_bytes 1001 (event_records events.now lengths.now drops.now timestamps.now)) out.old }
    ensures bytes { out.new ≡ written (events_of_form events.now lengths.now drops.now timestamps.now) (recording_bytes 1001 (event_records events.now lengths.now drops.now timestamps.now)) out.old }
{
    if lengths.len() == drops.len() && lengths.len() == timestamps.len() {
        let heads = Columns {
            lengths,
            drops,
            timestamps,
        };
        write_heads(events, &heads, out)
    } else {
        Err(Refusal::Packet)
    }
}
