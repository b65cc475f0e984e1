// A call about one slot: how its slot is found, what it answers where there is none, and what it does to the one found. The check,
// the search and the putting back are the same for all.
#![tactic(auto)]

ghost use Rattle.std.specs.Prelude.{◌≡◌, ℕ, List};
ghost use Rattle.slot.specs.declared.ConnectionManager.{ConnectionManager};
ghost use Rattle.slot.specs.declared.ConnectionStorage.{ConnectionStorage};
ghost use Rattle.pool.specs.declared.Pool.{Pool};
ghost use Rattle.pool.specs.declared.Share.TheVariants.{Untouched};
ghost use Rattle.model.specs.Answer.{Local as ModelLocal, Reply, reply_of};
ghost use Rattle.model.specs.Find.{Test, slot_at};
ghost use Rattle.model.specs.Calls.{Call, outcome, run};
ghost use Rattle.model.proofs.Pooled.{PoolMoved};
ghost use Rattle.rule.specs.Rule.{test_of};
ghost use Rattle.table.specs.Resolve.{resolved};
ghost use Rattle.slot_call.specs.declared.TableView.{TableView};
ghost use Rattle.table.specs.Answer.{outcome_of, look_of};
ghost use Rattle.slot_call.specs.Answer.{local_of};
ghost use Rattle.slot_call.specs.View.{view_of};

use pool::{Pool, Share};
use refusal::Refusal;
use rule::Rule;
use search::Found;
use slot::{ConnectionManager, ConnectionStorage, Located, Woken};
use std::alloc::AllocError;
use table::{Look, Outcome};

// What a call gives or why it is refused, whom it wakes, the slot afterwards, and what it does to the pool.
pub struct Local<T> {
    pub answer: Result<T, Refusal>,
    pub woken: Woken,
    pub slot: ConnectionStorage,
    pub share: Share,
}

// By hand, as those of `table::Outcome`.
impl<T: Copy> Clone for Local<T> {
    fn clone(&self) -> Result<Self, AllocError> {
        Ok(*self)
    }
}

impl<T: Copy> Copy for Local<T> {}

// The end of a lock, a grant or a ticket: one of another life of its slot does nothing.
#[derive(Clone, Copy)]
pub enum Ended {
    Stale,
    Done,
}

// What a call may read of the table beside its slot.
#[derive(Clone, Copy)]
pub struct TableView {
    pub default_link_credits: u32,
    pub default_att_mtu: u16,
    pub pool: Pool,
}

pub trait SlotCall {
    // What it gives where it is not refused.
    type Gives: Drop;

    ghost values: { Self.Gives → List ℕ };

    // The call of the model, and its three parts.
    ghost call: { Self → Call };

    ghost test: { Self → Test };

    ghost none: { Self → TableView → Reply };

    ghost done: { Self → TableView → ℕ → ConnectionStorage → ModelLocal };

    fn rule(&self) -> Rule
        ensures { test_of result ≡ test self.now };

    // Where no slot fits.
    fn absent(&self, view: TableView) -> Result<Self::Gives, Refusal>
        ensures { reply_of values result ≡ none self.now view };

    // At the slot that was found.
    fn at(&self, view: TableView, i: usize, s: ConnectionStorage) -> Local<Self::Gives>
        ensures { local_of values result ≡ done self.now view i s };

    // The parts make up the call.
    ghost runs: { (c : Self) (t : ConnectionManager) → outcome (test c) (none c (view_of t)) (λ i. done c (view_of t) i (slot_at t i)) t ≡ run (call c) t };

    // No more is drawn from the pool than is free, and no more goes back than the slot holds.
    ghost moves: { (c : Self) (k : TableView) (i : ℕ) (s : ConnectionStorage) → PoolMoved s k.pool (done c k i s) };
}

// Work on a slot that leaves the pool alone.
pub fn unshared<T>(answer: Result<T, Refusal>, woken: Woken, slot: ConnectionStorage) -> Local<T>
    ensures answer { result.answer ≡ answer }
    ensures woken { result.woken ≡ woken }
    ensures slot { result.slot ≡ slot }
    ensures share { result.share ≡ Untouched }
{
    Local {
        answer,
        woken,
        slot,
        share: Share::Untouched,
    }
}

// From what was found: 8, the answer where no slot fits, or the work on the slot.
pub fn found<C: SlotCall>(call: &C, view: TableView, f: Found) -> Local<C::Gives>
    ensures { local_of C.values result ≡ resolved (C.none call.now view) (C.done call.now view) f }
{
    match f.located {
        Located::Setup => unshared(Err(Refusal::Setup), Woken::Nobody, f.slot),
        Located::Absent => unshared(call.absent(view), Woken::Nobody, f.slot),
        Located::At(i) => call.at(view, i, f.slot),
    }
}

pub fn view(t: &ConnectionManager) -> TableView
    ensures { result ≡ view_of t.now }
{
    TableView {
        default_link_credits: t.default_link_credits,
        default_att_mtu: t.default_att_mtu,
        pool: t.pool,
    }
}

// The call's work on the slot that a rule finds, in place.
pub fn work_in<C: SlotCall>(t: &mut ConnectionManager, rule: Rule, call: &C) -> Look<C::Gives>
    ensures { look_of C.values result t.new ≡ outcome (test_of rule) (C.none call.now (view_of t.old)) (λ i. C.done call.now (view_of t.old) i (slot_at t.old i)) t.old }
{
    let f = search::find(t, rule);
    let Local {
        answer,
        woken,
        slot,
        share,
    } = found(call, view(t), f);
    table::put_shared(t, f.index, slot, share);
    Look { answer, woken }
}

// The call on the table, in place.
pub fn resolve_in<C: SlotCall>(t: &mut ConnectionManager, call: &C) -> Look<C::Gives>
    ensures { look_of C.values result t.new ≡ run (C.call call.now) t.old }
{
    work_in(t, call.rule(), call)
}

// The same, which gives the table afterwards. Each call by value is written so: a function around it would copy the table once more.
pub fn resolve<C: SlotCall>(t: ConnectionManager, call: &C) -> Outcome<C::Gives>
    ensures { outcome_of C.values result ≡ run (C.call call.now) t }
{
    let mut table = t;
    let Look { answer, woken } = resolve_in(&mut table, call);
    Outcome {
        answer,
        woken,
        table,
    }
}

// A call that only looks: it leaves every slot and the pool as they are.
pub trait LookCall: SlotCall {
    ghost looks: { (c : Self) (v : TableView) (i : ℕ) (s : ConnectionStorage) → ((Self.done c v i s).slot ≡ s) × ((Self.done c v i s).share ≡ Untouched) };
}

// Such a call, without the table afterwards.
pub fn resolve_look<C: LookCall>(t: &ConnectionManager, call: &C) -> Look<C::Gives>
    ensures { look_of C.values result t.now ≡ run (C.call call.now) t.now }
{
    let f = search::find(t, call.rule());
    let Local { answer, woken, .. } = found(call, view(t), f);
    Look { answer, woken }
}
