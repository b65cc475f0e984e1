// The check of a table, and the search for a slot in it.
#![tactic(auto)]

ghost use Rattle.std.specs.Prelude.{◌≡◌};
ghost use Rattle.model.specs.Find.{well_formed, locate as locate_of};
ghost use Rattle.rule.specs.Rule.{test_of};
ghost use Rattle.search.specs.Found.{found, place_of};
ghost use Rattle.search.specs.Pass.{begun, seen, ended};

use pool::Pool;
use rule::Rule;
use slot::{ConnectionManager, ConnectionStorage, Located};

// What a call works on: what was found, the slot's place and a copy of it. Where there is none, those of slot 0.
#[derive(Clone, Copy)]
pub struct Found {
    pub located: Located,
    pub index: usize,
    pub slot: ConnectionStorage,
}

// How far a search has come: what was found so far, how many slots there are to see, and the packets of the pool that are neither free
// nor held by a slot that was seen.
#[derive(Clone, Copy)]
pub struct Search {
    pub located: Located,
    pub end: usize,
    pub missing: u8,
}

// Before any slot is seen: a slot count out of bounds or a pool that does not fit it is 8, and then there is no slot to see.
pub fn begin(count: usize, pool: Pool) -> Search
    ensures { result ≡ begun count pool }
{
    if count < 1 || 16 < count || !pool::fits_slots(pool, count) {
        return Search {
            located: Located::Setup,
            end: 0,
            missing: 0,
        };
    }
    Search {
        located: Located::Absent,
        end: count,
        missing: pool.packets - pool.free,
    }
}

// What a slot makes of what was found before it: a queue out of bounds, or more packets than are missing, is 8, else the first that
// fits stays.
pub fn see(x: Search, i: usize, s: ConnectionStorage, rule: Rule) -> Search
    ensures { result ≡ seen (test_of rule) i s x }
{
    if ConnectionStorage::CONNECTION_EVENT_QUEUE_SIZE < s.events.len || x.missing < s.pool_held {
        return Search {
            located: Located::Setup,
            missing: 0,
            ..x
        };
    }
    let located = match x.located {
        Located::Absent if rule::fits(rule, i, s) => Located::At(i),
        found => found,
    };
    Search {
        located,
        missing: x.missing - s.pool_held,
        ..x
    }
}

// After the last slot: packets that are still missing are 8.
pub fn end(x: Search) -> Search
    ensures { result ≡ ended x }
{
    if x.missing == 0 {
        return x;
    }
    Search {
        located: Located::Setup,
        missing: 0,
        ..x
    }
}

fn place(found: Located) -> usize
    ensures { result ≡ place_of found }
{
    match found {
        Located::At(i) => i,
        _ => 0,
    }
}

// The check and the search in one pass.
pub fn find(t: &ConnectionManager, rule: Rule) -> Found
    ensures { result ≡ found (test_of rule) t.now }
{
    let mut x = begin(t.count, t.pool);
    for j in 0..x.end {
        x = see(x, j, t.connections[j], rule);
    }
    x = end(x);
    let i = place(x.located);
    Found {
        located: x.located,
        index: i,
        slot: t.connections[i],
    }
}

pub fn locate(t: &ConnectionManager, rule: Rule) -> Located
    ensures { result ≡ locate_of (test_of rule) t.now }
{
    find(t, rule).located
}

pub fn is_well_formed(t: &ConnectionManager) -> bool
    ensures { result ≡ well_formed t.now }
{
    !matches!(locate(t, Rule::Index(0)), Located::Setup)
}
