// The radio's events that are read and written, but for Number Of Completed Packets, and which values are of the form.
#![tactic(auto)]

ghost use Rattle.std.specs.Prelude.{◌≡◌, ◌&&◌};
ghost use Rattle.limits.specs.declared.Field.TheVariants as field;
ghost use Rattle.limits.specs.Limits.{within as within_of};
ghost use Rattle.hci.specs.Format.{of_form, if_done};

use limits::Field;
use slot::BdAddr;

// Fields are numbers as on the wire, but for the ignored bits of a handle: with a status other than 0 they hold any value.
#[derive(Clone, Copy)]
pub struct DisconnectionComplete {
    pub status: u8,
    pub handle: u16,
    pub reason: u8,
}

#[derive(Clone, Copy)]
pub struct LeConnectionComplete {
    pub status: u8,
    pub handle: u16,
    pub role: u8,
    pub peer_addr_kind: u8,
    pub peer_addr: BdAddr,
    // Units of 1,250 µs.
    pub conn_interval: u16,
    pub peripheral_latency: u16,
    // Units of 10,000 µs.
    pub supervision_timeout: u16,
    pub central_clock_accuracy: u8,
}

#[derive(Clone, Copy)]
pub struct LeConnectionUpdateComplete {
    pub status: u8,
    pub handle: u16,
    pub conn_interval: u16,
    pub peripheral_latency: u16,
    pub supervision_timeout: u16,
}

#[derive(Clone, Copy)]
pub enum HciEvent {
    DisconnectionComplete(DisconnectionComplete),
    LeConnectionComplete(LeConnectionComplete),
    LeConnectionUpdateComplete(LeConnectionUpdateComplete),
}

// A handle has 12 bits whatever the status; the other limits hold where the status is 0.
fn if_done(status: u8, handle: u16, limits: bool) -> bool
    ensures { result ≡ (within_of field.RawHandle handle && if_done status limits) }
{
    limits::within(Field::RawHandle, handle as usize) && (status != 0 || limits)
}

impl DisconnectionComplete {
    fn of_form(self) -> bool
        ensures { result ≡ of_form (HciEvent.DisconnectionComplete self) }
    {
        let limits = limits::within(Field::Handle, self.handle as usize);
        if_done(self.status, self.handle, limits)
    }
}

impl LeConnectionComplete {
    fn of_form(self) -> bool
        ensures { result ≡ of_form (HciEvent.LeConnectionComplete self) }
    {
        let limits = limits::within(Field::Handle, self.handle as usize)
            && limits::within(Field::Role, self.role as usize)
            && limits::within(Field::AddrKind, self.peer_addr_kind as usize)
            && limits::within(Field::ConnInterval, self.conn_interval as usize)
            && limits::within(Field::PeripheralLatency, self.peripheral_latency as usize)
            && limits::within(Field::SupervisionTimeout, self.supervision_timeout as usize)
            && limits::within(Field::ClockAccuracy, self.central_clock_accuracy as usize);
        if_done(self.status, self.handle, limits)
    }
}

impl LeConnectionUpdateComplete {
    fn of_form(self) -> bool
        ensures { result ≡ of_form (HciEvent.LeConnectionUpdateComplete self) }
    {
        let limits = limits::within(Field::Handle, self.handle as usize)
            && limits::within(Field::ConnInterval, self.conn_interval as usize)
            && limits::within(Field::PeripheralLatency, self.peripheral_latency as usize)
            && limits::within(Field::SupervisionTimeout, self.supervision_timeout as usize);
        if_done(self.status, self.handle, limits)
    }
}

impl HciEvent {
    // Whether the fields have values that the event can have.
    pub fn of_form(self) -> bool
        ensures { result ≡ of_form self }
    {
        match self {
            HciEvent::DisconnectionComplete(d) => d.of_form(),
            HciEvent::LeConnectionComplete(c) => c.of_form(),
            HciEvent::LeConnectionUpdateComplete(u) => u.of_form(),
        }
    }
}
