// `btsnoop run`: a recording run through a table, record by record, and as a whole.
ghost use Rattle.std.specs.Prelude.{◌+◌, ◌≤◌, length, IfSome};

use crate::fault::{Fault, Reason};
use crate::input::Input;
use crate::page::Page;
use crate::record::Record;
use crate::system::System;
use crate::table_display;
use btsnoop_read::RecordHead;
use host_event::EventGives;
use host_recording::{Replay, ReplayError, ReplayOutcome};
use program_io::{Streams, Tell};
use received::Received;
use recordings::ReplayCounts;
use refusal::Refusal;
use slot::ConnectionManager;
use std::alloc::AllocError;
use std::fmt;
use std::fmt::{Display, Formatter};
use woken_set::WokenSet;

// ---- a record

// What a record did: a number, that of a refusal or 0, and the values behind it.
#[derive(Drop)]
struct Answer<'a>(&'a Result<EventGives, Refusal>);

impl Display for Answer<'_> {
    fn fmt<W: fmt::Write>(&self, f: &mut Formatter<W>) -> fmt::Result {
        match self.0 {
            Err(Refusal::Packet) => f.write_str("passed over"),
            Err(refusal) => write!(f, "{}", u8::from(*refusal)),
            Ok(EventGives::Done) => f.write_str("0"),
            Ok(EventGives::Completed(c)) => write!(f, "0 {} {}", c.applied, c.skipped),
        }
    }
}

const NOTHING: ReplayCounts = ReplayCounts {
    run: 0,
    passed_over: 0,
    refused: 0,
};

// `host_recording` asks that no count is at its end, which a walk of records one by one does not know.
fn count(counts: &mut ReplayCounts, answer: &Result<EventGives, Refusal>) {
    let one_more = match answer {
        Ok(_) => &mut counts.run,
        Err(Refusal::Packet) => &mut counts.passed_over,
        Err(_) => &mut counts.refused,
    };
    *one_more = one_more.wrapping_add(1);
}

fn start(table: ConnectionManager) -> Replay {
    Replay {
        counts: NOTHING,
        woken: WokenSet::new(),
        table,
    }
}

// What one more record did.
fn add(done: &mut Replay, o: &Received<EventGives>) {
    count(&mut done.counts, &o.answer);
    done.woken = done.woken.join(o.woken);
    done.table = o.table;
}

// Where a record stands that is not whole, and its number.
#[derive(Clone, Copy)]
struct Cut {
    number: u64,
    at: usize,
}

#[derive(Drop)]
struct Walk {
    page: Page,
    done: Replay,
}

// The record at a position, where it is whole.
fn head_at(s: &[u8], at: usize) -> Option<RecordHead>
    ensures { IfSome result (λ head. at + 24 + head.included ≤ length s.now) }
{
    let Some(head) = btsnoop_read::record_at(s, at) else {
        return None;
    };
    Some(head)
}

impl Walk {
    // The number-th record, and its line.
    fn record(&mut self, number: u64, record: Record<'_>) -> Result<(), AllocError> {
        let o = host_record::received_record(
            self.done.table,
            record.datalink,
            record.head.flags,
            record.bytes,
        );
        let time = 0i64.wrapping_add_unsigned(record.head.timestamp);
        let answer = Answer(&o.answer);
        let woken = table_display::woken(o.woken);
        self.page.put(format_args!("{number} {time} {record} | {answer} | {woken}\n"))?;
        add(&mut self.done, &o);
        self.page.flush_full();
        Ok(())
    }

    // Up to the first record that is not whole.
    fn records(&mut self, datalink: u32, s: &[u8]) -> Result<Option<Cut>, AllocError> {
        let mut at: usize = 16;
        let mut number: u64 = 1;
        // A record is as long as its head says, so that no range or iterator goes over them.
        while at < s.len() {
            let Some(head) = head_at(s, at) else {
                return Ok(Some(Cut { number, at }));
            };
            let from = at + 24;
            let end = from + head.included as usize;
            let bytes = &s[from..end];
            self.record(
                number,
                Record {
                    datalink,
                    head,
                    bytes,
                },
            )?;
            at = end;
            number = number.wrapping_add(1);
        }
        Ok(None)
    }
}

// ---- the end

// The answer of the whole with its counts, the waiters and the table.
#[derive(Drop)]
struct Summary {
    number: u8,
    done: Replay,
}

impl Display for Summary {
    fn fmt<W: fmt::Write>(&self, f: &mut Formatter<W>) -> fmt::Result {
        let number = self.number;
        let Replay {
            counts,
            woken,
            table,
        } = self.done;
        writeln!(
            f,
            "{number}: run {}, passed over {}, refused {}",
            counts.run, counts.passed_over, counts.refused
        )?;
        writeln!(f, "woken: {}", table_display::woken(woken))?;
        writeln!(f, "table: {}", table_display::table(table))
    }
}

// What the whole recording gives, run on a new table.
fn replayed(table: ConnectionManager, s: &[u8]) -> Summary {
    let ReplayOutcome {
        answer,
        woken,
        table,
    } = host_recording::replay_recording(table, s);
    let (number, counts) = match answer {
        Ok(counts) => (0, counts),
        Err(ReplayError::Setup) => (8, NOTHING),
        Err(ReplayError::Header) => (11, NOTHING),
        Err(ReplayError::Record(counts)) => (12, counts),
    };
    Summary {
        number,
        done: Replay {
            counts,
            woken,
            table,
        },
    }
}

// Whether it is the same text; where it is not, it is told.
fn is_same(streams: Streams, told: &str, whole: &str) -> bool {
    if told == whole {
        return true;
    }
    let _ = print!(streams.errors; "replay_recording gives something else:\n{whole}");
    false
}

fn run_records<R>(
    system: &System<'_, R>,
    table: ConnectionManager,
    input: &Input<'_>,
) -> Result<(), AllocError> {
    let alloc = system.alloc;
    let streams = system.streams;
    let s = input.bytes.as_slice();
    let mut walk = Walk {
        page: Page::new(alloc, streams),
        done: start(table),
    };
    let cut = walk.records(big_endian::u32_at(s, 12), s)?;
    let Walk { mut page, done } = walk;
    if let Some(Cut { number, at }) = cut {
        let at = at as u64;
        streams.tell(input.name, Reason::Record { number, at });
    }
    page.flush();
    let number = if cut.is_some() { 12 } else { 0 };
    let told = format!(in alloc; "{}", Summary { number, done })?;
    page.put(told.as_str())?;
    page.flush();
    if page.is_writable() {
        let whole = format!(in alloc; "{}", replayed(table, s))?;
        let answer = if is_same(streams, told.as_str(), whole.as_str()) {
            "yes"
        } else {
            "no"
        };
        page.put(format_args!("as replay_recording: {answer}\n"))?;
        page.flush();
    }
    Ok(())
}

pub fn run<'a, R>(
    system: &System<'_, R>,
    table: ConnectionManager,
    input: Input<'a>,
) -> Result<(), Fault<'a>> {
    if !btsnoop_read::is_header(&input.bytes) {
        return Err(Fault::new(input.name, Reason::Header));
    }
    run_records(system, table, &input).map_err(|e| Fault::new(input.name, e))
}
