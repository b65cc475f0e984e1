// The call that a line asks for: its first word, and its arguments as `args` reads them.
use crate::fault::Fault;
use crate::line::Line;
use calls::Call;

impl<'a> Line<'a> {
    // A call whose line ends behind its last argument.
    fn done(self, call: Call) -> Result<Call, Fault> {
        self.end()?;
        Ok(call)
    }

    // A call of one argument, which `read` reads.
    fn one<T, R, F>(mut self, read: R, call: F) -> Result<Call, Fault>
    where
        R: FnOnce(&mut Line<'a>) -> Result<T, Fault>,
        F: FnOnce(T) -> Call,
        requires read { R.IsAlwaysCallable read }
        requires call { F.IsAlwaysCallable call }
    {
        let argument = read(&mut self)?;
        self.done(call(argument))
    }

    // A call of two.
    fn two<S: Drop, T, Q, R, F>(mut self, first: Q, second: R, call: F) -> Result<Call, Fault>
    where
        Q: FnOnce(&mut Line<'a>) -> Result<S, Fault>,
        R: FnOnce(&mut Line<'a>) -> Result<T, Fault>,
        F: FnOnce(S, T) -> Call,
        requires first { Q.IsAlwaysCallable first }
        requires second { R.IsAlwaysCallable second }
        requires call { F.IsAlwaysCallable call }
    {
        let first = first(&mut self)?;
        let second = second(&mut self)?;
        self.done(call(first, second))
    }

    // The calls by their words, in functions of some eight each, which hand on to the next: the borrow checker takes no more arms in one.
    pub fn call(self) -> Result<Call, Fault> {
        match self.name {
            b"connect" => self.one(Line::link, Call::Connect),
            b"get_connected_handle" => self.one(Line::handle, Call::GetConnectedHandle),
            b"get_connection_by_peer_address" => self.one(
                Line::peer,
                Call::GetConnectionByPeerAddress,
            ),
            b"inc_ref" => self.one(Line::index, Call::IncRef),
            b"dec_ref" => self.one(Line::index, Call::DecRef),
            _ => self.closing(),
        }
    }

    fn closing(self) -> Result<Call, Fault> {
        match self.name {
            b"request_disconnect" => self.two(Line::index, Line::reason, Call::RequestDisconnect),
            b"request_handle_disconnect" => self.two(
                Line::handle,
                Line::reason,
                Call::RequestHandleDisconnect,
            ),
            b"withdraw_disconnect" => self.one(Line::index, Call::WithdrawDisconnect),
            b"poll_disconnecting" => self.done(Call::PollDisconnecting),
            b"confirm" => self.one(Line::request, Call::Confirm),
            b"disconnected" => self.two(Line::handle, Line::status, Call::Disconnected),
            b"post_handle_event" => self.two(Line::handle, Line::event, Call::PostHandleEvent),
            b"next" => self.one(Line::index, Call::Next),
            _ => self.sending(),
        }
    }

    fn sending(self) -> Result<Call, Fault> {
        match self.name {
            b"poll_acquire_acl_send_lock" => self.one(Line::handle, Call::PollAcquireAclSendLock),
            b"unlock_acl_send" => self.one(Line::lock, Call::UnlockAclSend),
            b"poll_request_to_send" => self.two(
                Line::lock_of,
                Line::packets,
                Call::PollRequestToSend,
            ),
            b"grant_end" => self.one(Line::grant, Call::GrantEnd),
            b"confirm_sent" => self.two(Line::handle, Line::packets, Call::ConfirmSent),
            b"set_link_credits" => self.one(Line::credits, Call::SetLinkCredits),
            b"has_link_credits" => self.two(Line::handle, Line::packets, Call::HasLinkCredits),
            _ => self.from_pool(),
        }
    }

    fn from_pool(self) -> Result<Call, Fault> {
        match self.name {
            b"total_lost" => self.done(Call::TotalLost),
            b"poll_request_from_pool" => self.two(
                Line::handle,
                Line::packets,
                Call::PollRequestFromPool,
            ),
            b"pool_confirm_sent" => self.two(Line::handle, Line::packets, Call::PoolConfirmSent),
            b"pool_grant_end" => self.one(Line::pool_grant, Call::PoolGrantEnd),
            _ => self.att(),
        }
    }

    fn att(self) -> Result<Call, Fault> {
        match self.name {
            b"exchange_att_mtu" => self.two(Line::handle, Line::mtu, Call::ExchangeAttMtu),
            b"get_att_mtu_handle" => self.one(Line::handle, Call::GetAttMtuHandle),
            b"negotiate_att_mtu" => self.two(Line::handle, Line::mtu, Call::NegotiateAttMtu),
            b"get_stored_att_mtu" => self.one(Line::handle, Call::GetStoredAttMtu),
            b"acquire_indication_slot" => self.one(Line::index, Call::AcquireIndicationSlot),
            b"release_indication_slot" => self.one(Line::index, Call::ReleaseIndicationSlot),
            b"signal_indication_confirmation" => self.one(
                Line::handle,
                Call::SignalIndicationConfirmation,
            ),
            b"wait_indication_confirmation" => self.one(
                Line::index,
                Call::WaitIndicationConfirmation,
            ),
            _ => Err(Fault::UnknownWord),
        }
    }
}
