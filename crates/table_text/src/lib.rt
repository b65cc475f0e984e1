// The text of the table. It takes any table.
// A slice and a position stay two arguments: a struct of both would owe each function a clause more (`text`).
#![tactic(auto)]

ghost use Rattle.std.specs.Prelude.{◌≡◌};
ghost use Rattle.text.specs.Text.{put_all, put_end};
ghost use Rattle.table_text.specs.Table.{last_text, pool_text, lost_number, head_text, slots_text, table_text};

use number_text::{put_behind, put_number, put_numbers};
use pool::Pool;
use slot::ConnectionManager;

// The slot last granted: one before the turn.
#[tactic(auto, using(text::specs::Append::puts))]
fn put_last(out: &mut [u8], at: usize, turn: u8) -> usize
    ensures bytes { out.new ≡ put_all out.old at (last_text turn) }
    ensures next { result ≡ put_end out.old at (last_text turn) }
{
    if turn == 0 {
        return text::put_all(out, at, b" -");
    }
    put_behind(out, at, b' ', (turn - 1) as u64)
}

#[tactic(auto, using(text::specs::Append::puts))]
fn put_pool(out: &mut [u8], at: usize, p: Pool) -> usize
    ensures bytes { out.new ≡ put_all out.old at (pool_text p) }
    ensures next { result ≡ put_end out.old at (pool_text p) }
{
    let n = put_numbers(
        out,
        at,
        b' ',
        &[p.packets as u64, p.free as u64, p.waiting as u64],
    );
    put_last(out, n, p.turn)
}

// 0 of a table out of bounds, which no history reaches.
#[tactic(auto, using(crate::specs::Laws::lost_answer))]
fn lost(t: &ConnectionManager) -> u32
    ensures { result ≡ lost_number t.now }
{
    match total_lost::total_lost_in(t).answer {
        Ok(n) => n,
        Err(_) => 0,
    }
}

// What stands before the slots.
#[tactic(auto, using(text::specs::Append::puts), unfolding(crate::specs::Table::head_text))]
fn put_head(out: &mut [u8], at: usize, t: &ConnectionManager) -> usize
    ensures bytes { out.new ≡ put_all out.old at (head_text t.now) }
    ensures next { result ≡ put_end out.old at (head_text t.now) }
{
    let n = put_number(out, at, t.default_link_credits as u64);
    let n = put_numbers(out, n, b' ', &[t.default_att_mtu as u64, lost(t) as u64]);
    put_pool(out, n, t.pool)
}

#[tactic(auto, using(text::specs::Append::puts, text::specs::Append::places))]
fn put_slots(out: &mut [u8], at: usize, t: &ConnectionManager) -> usize
    ensures bytes { out.new ≡ put_all out.old at (slots_text t.now) }
    ensures next { result ≡ put_end out.old at (slots_text t.now) }
{
    let mut n = at;
    for i in 0..16 {
        if t.count <= i {
            return n;
        }
        n = text::put_all(out, n, b" / ");
        n = slot_text::put_slot(out, n, t.connections[i]);
    }
    n
}

// The table on one line; answers the position behind.
#[tactic(auto, using(text::specs::Append::puts))]
pub fn put_table(out: &mut [u8], at: usize, t: ConnectionManager) -> usize
    ensures bytes { out.new ≡ put_all out.old at (table_text t) }
    ensures next { result ≡ put_end out.old at (table_text t) }
{
    let n = put_head(out, at, &t);
    put_slots(out, n, &t)
}
