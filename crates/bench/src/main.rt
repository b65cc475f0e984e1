// Makes the calls of one kind many times, without text, on the last slot of a table in which every slot has a link, and
// writes what the slot then holds. `oracle/bench` times it beside the Rust.
//
// Standard input: the kind, the slot count and the number of calls, with a byte between them.
#![tactic(auto)]

mod direct;
mod kinds;

use calls::Call;
use direct::{DirectKind, Pairs};
use kinds::{Kind, Link};
use slot::{ConnectionManager, ConnectionStorage};
use std::io;
use std::io::Read;

// Numbers, each but the last with a byte behind it.
#[derive(Clone, Copy)]
struct Numbers<'a> {
    text: &'a [u8],
    at: usize,
}

impl Numbers<'_> {
    // 0 where none stands; then the place stays.
    fn take(&mut self) -> u64 {
        let Ok(number) = text_read::number_at(self.text, self.at) else {
            return 0;
        };
        self.at = number.next.wrapping_add(1);
        number.value
    }
}

// Calls of one kind, and how they are made.
#[derive(Clone, Copy)]
enum Way {
    // Through `run_call`.
    RunCall(Kind),
    // By the calls' own functions.
    Direct(DirectKind),
}

// By the numbers of `oracle/bench`.
const WAYS: [Way; 15] = [
    Way::RunCall(Kind::SendLock),
    Way::RunCall(Kind::Grant),
    Way::RunCall(Kind::LinkCredits),
    Way::RunCall(Kind::References),
    Way::RunCall(Kind::Handle),
    Way::RunCall(Kind::Peer),
    Way::RunCall(Kind::Event),
    Way::RunCall(Kind::AttMtu),
    Way::RunCall(Kind::IndicationSlot),
    Way::RunCall(Kind::Confirmation),
    Way::RunCall(Kind::Table),
    Way::RunCall(Kind::Life),
    Way::Direct(DirectKind::SendLock),
    Way::Direct(DirectKind::References),
    Way::Direct(DirectKind::Event),
];

impl From<u64> for Way {
    // A number behind the last stands for the last.
    fn from(number: u64) -> Way {
        let way = WAYS.get(number as usize).copied();
        way.unwrap_or(Way::Direct(DirectKind::Event))
    }
}

// So many calls to one link.
#[derive(Clone, Copy)]
struct Run {
    way: Way,
    count: u64,
    link: Link,
}

impl Run {
    fn through_run_call(self, table: ConnectionManager, kind: Kind) -> ConnectionManager {
        let mut t = table;
        // `fold` took an eighth more time: it hands the table to a closure.
        for n in 0..self.count {
            t = calls::run_call(t, kind.call(n, self.link)).table;
        }
        t
    }

    // The table once they were made.
    fn made(self, table: ConnectionManager) -> ConnectionManager {
        match self.way {
            Way::RunCall(kind) => self.through_run_call(table, kind),
            Way::Direct(kind) => {
                let pairs = Pairs {
                    count: self.count / 2,
                    link: self.link,
                };
                pairs.made(table, kind)
            }
        }
    }
}

// A table in which every slot has a link.
fn linked(slots: u8) -> ConnectionManager {
    let made = table::new(slots, 251, 1);
    let given = calls::run_call(made.table, Call::SetLinkCredits(10));
    (0..slots).fold(given.table, |t, index| {
        let taken = calls::run_call(t, Link { index }.connect());
        calls::run_call(taken.table, kinds::accept()).table
    })
}

// References, credits, events and ATT MTU.
fn write_slot(out: &impl Print, s: &ConnectionStorage) -> io::Result<()> {
    println!(out;
        "{}\n{}\n{}\n{}",
        s.refcount, s.link_credits, s.events.len, s.att_mtu
    )
}

fn bench(out: &impl Print, text: &[u8]) -> io::Result<()> {
    let mut numbers = Numbers { text, at: 0 };
    let way = Way::from(numbers.take());
    let slots = (numbers.take() % 17) as u8;
    let count = numbers.take();
    let index = slots.saturating_sub(1);
    let link = Link { index };
    let run = Run { way, count, link };
    let t = run.made(linked(slots));
    match t.connections.get(index as usize) {
        Some(slot) => write_slot(out, slot),
        None => Ok(()),
    }
}

fn main(rt: HostRuntime) -> io::Result<()> {
    // One read of a short line: no longer input is taken.
    let mut buffer = [0u8; 65536];
    let n = rt.stdin().read(&mut buffer)?;
    if n > 0 {
        bench(&rt, &buffer[..n])?;
    }
    Ok(())
}
