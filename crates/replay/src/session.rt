// The table that is kept from line to line, and what a line does to it and writes.
use crate::answer::{Answer, Values};
use crate::args::ListedPeers;
use crate::fault::Fault;
use crate::line::Line;
use crate::message;
use crate::message::AttGiven;
use crate::page::Page;
use received::Received;
use refusal::Refusal;
use slot::{ConnectionManager, LeConnRole, PacketGrant};
use table::Outcome;
use woken_set::WokenSet;

#[derive(Drop)]
pub struct Session {
    // None until a `new` is accepted.
    table: Option<ConnectionManager>,
    pub page: Page,
}

// Both go by value; a full list is lent on as a slice there (`poll_accept_sixteen`), so that the lent form is run too.
fn accepted(t: ConnectionManager, role: LeConnRole, peers: ListedPeers) -> Outcome<usize> {
    if peers.n == 16 {
        return accept_sixteen::poll_accept_sixteen(t, role, peers.list);
    }
    accept::poll_accept_listed(t, role, peers.list, peers.n)
}

impl Session {
    pub fn new(page: Page) -> Self {
        Session { table: None, page }
    }

    fn table(&self) -> Result<ConnectionManager, Fault> {
        self.table.ok_or(Fault::NoTable)
    }

    // The line and its answer.
    fn answer(&mut self, line: Line<'_>, answer: &impl Answer) {
        self.page.put(line.text);
        self.page.put(b" | ");
        answer.put(&mut self.page);
    }

    // The line, its answer, the waiters and the table, which is kept.
    fn outcome(
        &mut self,
        line: Line<'_>,
        answer: &impl Answer,
        woken: WokenSet,
        table: ConnectionManager,
    ) {
        self.answer(line, answer);
        self.page.put(b" | ");
        self.page.put_woken(woken);
        self.page.put(b" | ");
        self.page.put_table(table);
        self.page.put(b"\n");
        self.table = Some(table);
    }

    fn called<T: Values>(&mut self, line: Line<'_>, o: &Outcome<T>) {
        self.outcome(line, &o.answer, WokenSet::new().add(o.woken), o.table);
    }

    fn received<T: Values>(&mut self, line: Line<'_>, r: &Received<T>) {
        self.outcome(line, &r.answer, r.woken, r.table);
    }

    // A refused `new` leaves the table before it, and none is written.
    fn new_table(&mut self, line: Line<'_>) -> Result<(), Fault> {
        let (slots, mtu, packets) = line.new_arguments()?;
        let made = table::new(slots, mtu, packets);
        match made.answer {
            Ok(()) => self.called(line, &made),
            Err(_) => {
                self.answer(line, &made.answer);
                self.page.put(b"\n");
            }
        }
        Ok(())
    }

    // The peers and the bytes of a line are read where there is a table for them.
    fn poll_accept(&mut self, line: Line<'_>) -> Result<(), Fault> {
        let t = self.table()?;
        let (role, peers) = line.role_and_peers()?;
        self.called(line, &accepted(t, role, peers));
        Ok(())
    }

    fn poll_accept_recorded(&mut self, line: Line<'_>) -> Result<(), Fault> {
        let t = self.table()?;
        let (role, file) = line.role_and_bytes()?;
        self.called(line, &accept_recorded::poll_accept_recorded(t, role, &file));
        Ok(())
    }

    // The table is not looked at: the grant is its holder's.
    fn grant_confirm(&mut self, line: Line<'_>) -> Result<(), Fault> {
        let (grant, sent) = line.grant_and_sent()?;
        let t = self.table()?;
        let left: Result<PacketGrant, Refusal> = Ok(packet_grant::confirmed(grant, sent));
        self.outcome(line, &left, WokenSet::new(), t);
        Ok(())
    }

    fn call(&mut self, line: Line<'_>) -> Result<(), Fault> {
        let call = line.call()?;
        let o = calls::run_call(self.table()?, call);
        self.outcome(line, &o.answer, WokenSet::new().add(o.woken), o.table);
        Ok(())
    }

    fn event(&mut self, line: Line<'_>) -> Result<(), Fault> {
        let t = self.table()?;
        let bytes = line.last_bytes()?;
        self.received(line, &host::received(t, &bytes));
        Ok(())
    }

    fn pdu(&mut self, line: Line<'_>) -> Result<(), Fault> {
        let t = self.table()?;
        let (handle, bytes) = line.handle_and_bytes()?;
        let r = host_att::received_att(t, handle, &bytes);
        let message = bytes.as_slice();
        let answer = r.answer.map(|gives| AttGiven { gives, message });
        self.outcome(line, &answer, r.woken, r.table);
        Ok(())
    }

    fn recording(&mut self, line: Line<'_>) -> Result<(), Fault> {
        let t = self.table()?;
        let bytes = line.last_bytes()?;
        let o = host_recording::replay_recording(t, &bytes);
        self.outcome(line, &o.answer, o.woken, o.table);
        Ok(())
    }

    // The roster leaves the table and wakes nobody.
    fn roster(&mut self, line: Line<'_>) -> Result<(), Fault> {
        line.end()?;
        let t = self.table()?;
        self.outcome(line, &message::roster(t), WokenSet::new(), t);
        Ok(())
    }

    // A line that is neither empty nor a comment nor too long. One arm for each word that is no plain call: what it reads and writes is
    // its own.
    pub fn run(&mut self, text: &[u8]) -> Result<(), Fault> {
        let line = Line::of(text)?;
        match line.name {
            b"new" => self.new_table(line),
            b"poll_accept" => self.poll_accept(line),
            b"poll_accept_recorded" => self.poll_accept_recorded(line),
            b"grant_confirm" => self.grant_confirm(line),
            b"received" => self.event(line),
            b"received_att" => self.pdu(line),
            b"recording" => self.recording(line),
            b"roster" => self.roster(line),
            _ => self.call(line),
        }
    }
}
