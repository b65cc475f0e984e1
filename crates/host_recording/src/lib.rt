// A btsnoop recording, as bytes, run through the table.
#![tactic(auto)]

ghost use Rattle.std.specs.Prelude.{◌≡◌};
ghost use Rattle.model.specs.Answer.{reply_of};
ghost use Rattle.messages.specs.Received.{received};
ghost use Rattle.host_event.specs.Answer.{event_gives_values};
ghost use Rattle.btsnoop_read.specs.Read.{records_in, told};
ghost use Rattle.recordings.specs.Recording.{counted, started, ran, ran_record, received_record, replayed};
ghost use Rattle.host_recording.specs.Answer.{replay_outcome, ended, running_of, walked_of};
ghost use Rattle.host_recording.specs.Laws.{Countable};

use host_event::EventGives;
use recordings::ReplayCounts;
use refusal::Refusal;
use slot::ConnectionManager;
use woken_set::WokenSet;

// Where a run stands.
#[derive(Clone, Copy)]
pub struct Replay {
    pub counts: ReplayCounts,
    pub woken: WokenSet,
    pub table: ConnectionManager,
}

// Why a recording was not run, or not to its end.
#[derive(Clone, Copy)]
pub enum ReplayError {
    Setup,
    Header,
    // A record is not whole: the counts up to it.
    Record(ReplayCounts),
}

// Beside `received::Received`, since its error tells the counts.
#[derive(Clone, Copy)]
pub struct ReplayOutcome {
    pub answer: Result<ReplayCounts, ReplayError>,
    pub woken: WokenSet,
    pub table: ConnectionManager,
}

// ---- what came of a record

#[tactic(auto, unfolding(recordings::specs::Recording::counted))]
fn count(c: ReplayCounts, answer: Result<EventGives, Refusal>) -> ReplayCounts
    requires { Countable c }
    ensures { result ≡ counted (reply_of event_gives_values answer).number c }
{
    match answer {
        Ok(_) => ReplayCounts {
            run: c.run + 1,
            ..c
        },
        Err(Refusal::Packet) => ReplayCounts {
            passed_over: c.passed_over + 1,
            ..c
        },
        Err(_) => ReplayCounts {
            refused: c.refused + 1,
            ..c
        },
    }
}

// ---- record by record

fn start(t: ConnectionManager) -> Replay
    ensures { running_of result ≡ started t }
{
    Replay {
        counts: ReplayCounts {
            run: 0,
            passed_over: 0,
            refused: 0,
        },
        woken: WokenSet::new(),
        table: t,
    }
}

fn run_record(p: Replay, datalink: u32, flags: u32, part: &[u8]) -> Replay
    requires { Countable p.counts }
    ensures { running_of result ≡ ran (running_of p) (received_record received datalink flags part.now p.table) }
{
    let o = host_record::received_record(p.table, datalink, flags, part);
    Replay {
        counts: count(p.counts, o.answer),
        woken: p.woken.join(o.woken),
        table: o.table,
    }
}

// `Err`: a record is not whole; where the run stands before it.
fn run_records(t: ConnectionManager, datalink: u32, s: &[u8]) -> Result<Replay, Replay>
    ensures { walked_of result ≡ told (ran_record received datalink) (started t) (records_in s.now) }
{
    let mut p = start(t);
    let mut at: usize = 16;
    while let Some(head) = btsnoop_read::record_at(s, at) {
        let from = at + 24;
        let end = from + (head.included as usize);
        p = run_record(p, datalink, head.flags, &s[from..end]);
        at = end;
    }
    if at < s.len() {
        return Err(p);
    }
    Ok(p)
}

// ---- the whole

fn outcome(answer: Result<ReplayCounts, ReplayError>, p: Replay) -> ReplayOutcome
    ensures { replay_outcome result ≡ ended answer p }
{
    ReplayOutcome {
        answer,
        woken: p.woken,
        table: p.table,
    }
}

// 8, then 11, then 12 where the reading meets it: the records before that one stay run.
pub fn replay_recording(t: ConnectionManager, s: &[u8]) -> ReplayOutcome
    ensures { replay_outcome result ≡ replayed s.now t }
{
    if !search::is_well_formed(&t) {
        return outcome(Err(ReplayError::Setup), start(t));
    }
    if !btsnoop_read::is_header(s) {
        return outcome(Err(ReplayError::Header), start(t));
    }
    let datalink = big_endian::u32_at(s, 12);
    match run_records(t, datalink, s) {
        Ok(p) => outcome(Ok(p.counts), p),
        Err(p) => outcome(Err(ReplayError::Record(p.counts)), p),
    }
}
