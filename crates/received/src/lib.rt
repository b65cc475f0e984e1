// What a received message gives back, and what the messages' runs share.
#![tactic(auto)]

ghost use Rattle.std.specs.Prelude.{◌≡◌, ℕ, List, []};
ghost use Rattle.model.specs.Answer.{ok, reply_of};
ghost use Rattle.messages.specs.Received.{refused_with, run_all};
ghost use Rattle.messages.proofs.Laws.{lifted};
ghost use Rattle.table.specs.Answer.{outcome_of};
ghost use Rattle.received.specs.Answer.{received_of};

use refusal::Refusal;
use slot::ConnectionManager;
use std::alloc::AllocError;
use table::Outcome;
use woken_set::WokenSet;

// What a message gives or why it is refused, whom it wakes, and the table afterwards. A message can wake more than one waiter, so it is
// no `table::Outcome` (see there).
pub struct Received<T> {
    pub answer: Result<T, Refusal>,
    pub woken: WokenSet,
    pub table: ConnectionManager,
}

// By hand, as those of `table::Outcome`.
impl<T: Copy> Clone for Received<T> {
    fn clone(&self) -> Result<Self, AllocError> {
        Ok(*self)
    }
}

impl<T: Copy> Copy for Received<T> {}

// What a message gives that runs one call, which gives an A: it has the same values.
pub trait FromCall<A>: Drop {
    ghost values: { Self → List ℕ };

    ghost call_values: { A → List ℕ };

    fn from_call(a: A) -> Self
        ensures { values result ≡ call_values a };
}

// A refusal leaves the table as it was and wakes nobody.
pub fn refused<T>(refusal: Refusal, table: ConnectionManager) -> Received<T>
    ensures { (values : T → List ℕ) → received_of values result ≡ refused_with refusal table }
{
    Received {
        answer: Err(refusal),
        woken: WokenSet::new(),
        table,
    }
}

// A message that runs no call; the table is checked all the same.
pub fn idle<T: Drop>(table: ConnectionManager, gives: T) -> Received<T>
    ensures { (values : T → List ℕ) → received_of values result ≡ run_all (λ os. ok (values gives)) [] table }
{
    if !search::is_well_formed(&table) {
        return refused(Refusal::Setup, table);
    }
    Received {
        answer: Ok(gives),
        woken: WokenSet::new(),
        table,
    }
}

fn answer<A: Drop, T: FromCall<A>>(a: Result<A, Refusal>) -> Result<T, Refusal>
    ensures { reply_of T.values result ≡ reply_of T.call_values a }
{
    match a {
        Ok(a) => Ok(T::from_call(a)),
        Err(r) => Err(r),
    }
}

// A message that runs one call, with this outcome.
pub fn one<A: Drop, T: FromCall<A>>(o: Outcome<A>) -> Received<T>
    ensures { received_of T.values result ≡ lifted (outcome_of T.call_values o) }
{
    Received {
        answer: answer(o.answer),
        woken: WokenSet::new().add(o.woken),
        table: o.table,
    }
}
