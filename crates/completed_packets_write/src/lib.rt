// Number Of Completed Packets written as bytes into a lent slice: from a slice of pairs, or from a slice of handles and one of counts.
// Both are one writer, that takes the pairs one at a time from what the caller lends; nothing is gathered first.
#![tactic(auto)]

ghost use Rattle.std.specs.Prelude.{◌≡◌, List, ◌∷◌, ◌+◌, ◌*◌, ◌<◌, ◌≤◌, ◌++◌, length, drop};
ghost use Rattle.std.proofs.lemmas.List.Edits.{sets};
ghost use Rattle.wire.specs.Wire.{le16, write_reply, writing, written};
ghost use Rattle.completed_packets.specs.Format.{Pair, pairs_bytes, pairs_of_form, completed_bytes};
ghost use Rattle.completed_packets_write.specs.Paired.{paired, paired_of_form};

use completed_packets::ConnHandleCompletedPackets;
use limits::Field;
use refusal::Refusal;

// ---- the pairs

trait PairList {
    ghost pairs: { Self → List Pair };

    fn count(&self) -> usize
        ensures { result ≡ length (pairs self.now) };

    fn at(&self, i: usize) -> ConnHandleCompletedPackets
        requires { i < length (pairs self.now) }
        ensures { drop i (pairs self.now) ≡ result ∷ drop (i + 1) (pairs self.now) };
}

#[derive(Clone, Copy)]
struct Listed<'a> {
    pairs: &'a [ConnHandleCompletedPackets],
}

impl PairList for Listed<'_> {
    ghost pairs = { λ l. l.pairs.now };

    fn count(&self) -> usize {
        self.pairs.len()
    }

    fn at(&self, i: usize) -> ConnHandleCompletedPackets {
        self.pairs[i]
    }
}

// The pair i has the handle i and the count i.
#[derive(Clone, Copy)]
struct Columns<'a> {
    handles: &'a [u16],
    counts: &'a [u16],
    ghost same: { length handles.now ≡ length counts.now },
}

impl PairList for Columns<'_> {
    ghost pairs = { λ c. paired c.handles.now c.counts.now };

    fn count(&self) -> usize {
        self.handles.len()
    }

    fn at(&self, i: usize) -> ConnHandleCompletedPackets {
        ConnHandleCompletedPackets {
            handle: self.handles[i],
            num_completed_packets: self.counts[i],
        }
    }
}

// ---- the writer

// Whether these are the pairs of one event.
fn of_form<P: PairList>(pairs: &P) -> bool
    ensures { result ≡ pairs_of_form (P.pairs pairs.now) }
{
    let n = pairs.count();
    if !limits::within(Field::Pairs, n) {
        return false;
    }
    // std's iterators have no code that the program of all libraries can name.
    for i in 0..n {
        if !limits::within(Field::Handle, pairs.at(i).handle as usize) {
            return false;
        }
    }
    true
}

fn put_pair(out: &mut [u8], at: usize, pair: ConnHandleCompletedPackets)
    requires { at + 4 ≤ length out.old }
    ensures { out.new ≡ sets out.old at (le16 pair.handle ++ le16 pair.num_completed_packets) }
{
    out[at] = wire::low_byte(pair.handle);
    out[at + 1] = wire::high_byte(pair.handle);
    out[at + 2] = wire::low_byte(pair.num_completed_packets);
    out[at + 3] = wire::high_byte(pair.num_completed_packets);
}

// The pairs, behind the three bytes of the header.
fn put_pairs<P: PairList>(pairs: &P, out: &mut [u8])
    requires { 3 + 4 * length (P.pairs pairs.now) ≤ length out.old }
    ensures { out.new ≡ sets out.old 3 (pairs_bytes (P.pairs pairs.now)) }
{
    // By index, as in `of_form`.
    for i in 0..pairs.count() {
        put_pair(out, 3 + 4 * i, pairs.at(i));
    }
}

fn write_pairs<P: PairList>(pairs: &P, out: &mut [u8]) -> Result<usize, Refusal>
    ensures reply { write_reply result ≡ writing (pairs_of_form (P.pairs pairs.now)) (completed_bytes (P.pairs pairs.now)) out.old }
    ensures bytes { out.new ≡ written (pairs_of_form (P.pairs pairs.now)) (completed_bytes (P.pairs pairs.now)) out.old }
{
    if !of_form(pairs) {
        return Err(Refusal::Packet);
    }
    let n = pairs.count();
    let parameters = 1 + 4 * n;
    let size = 2 + parameters;
    if out.len() < size {
        return Err(Refusal::Space);
    }
    out[0] = 0x13;
    out[1] = parameters as u8;
    out[2] = n as u8;
    put_pairs(pairs, out);
    Ok(size)
}

// ---- what callers write

// Writes the event to the start of a slice: 9 where the pairs are no event's, 10 where it does not fit, and then nothing is written.
pub fn write(pairs: &[ConnHandleCompletedPackets], out: &mut [u8]) -> Result<usize, Refusal>
    ensures reply { write_reply result ≡ writing (pairs_of_form pairs.now) (completed_bytes pairs.now) out.old }
    ensures bytes { out.new ≡ written (pairs_of_form pairs.now) (completed_bytes pairs.now) out.old }
{
    write_pairs(&Listed { pairs }, out)
}

// The same from the handles and the counts; 9 also where there are more of the one than of the other.
pub fn write_columns(handles: &[u16], counts: &[u16], out: &mut [u8]) -> Result<usize, Refusal>
    ensures reply { write_reply result ≡ writing (paired_of_form handles.now counts.now) (completed_bytes (paired handles.now counts.now)) out.old }
    ensures bytes { out.new ≡ written (paired_of_form handles.now counts.now) (completed_bytes (paired handles.now counts.now)) out.old }
{
    if handles.len() == counts.len() {
        write_pairs(&Columns { handles, counts }, out)
    } else {
        Err(Refusal::Packet)
    }
}
