// Every call of the table as a value, and one function that runs any of them. `poll_accept` stands here with an empty list: no
// variant can hold a list of peers.
#![tactic(auto)]

ghost use Rattle.std.specs.Prelude.{◌≡◌};
ghost use Rattle.model.specs.Calls.{run};
ghost use Rattle.calls.specs.Answer.{call_of, call_look, call_outcome, call_kind, answer_kind};

use accept::PollAcceptAnyCall;
use acquire_indication_slot::AcquireIndicationSlotCall;
use att_mtu::{ExchangeAttMtuCall, GetAttMtuHandleCall};
use confirm::ConfirmCall;
use confirm_sent::ConfirmSentCall;
use connect::{ConnectCall, NewLink};
use dec_ref::DecRefCall;
use disconnected::DisconnectedCall;
use event_queue::ConnectionEvent;
use grant_end::GrantEndCall;
use has_link_credits::HasLinkCreditsCall;
use inc_ref::IncRefCall;
use lookup::{GetConnectedHandleCall, GetConnectionByPeerAddressCall};
use negotiated_mtu::{GetStoredAttMtuCall, NegotiateAttMtuCall};
use next::NextCall;
use poll_acquire_acl_send_lock::PollAcquireAclSendLockCall;
use poll_disconnecting::PollDisconnectingCall;
use poll_request_from_pool::PollRequestFromPoolCall;
use poll_request_to_send::PollRequestToSendCall;
use pool_returns::{PoolConfirmSentCall, PoolGrantEndCall};
use post_handle_event::PostHandleEventCall;
use refusal::Refusal;
use release_indication_slot::ReleaseIndicationSlotCall;
use request_disconnect::{RequestDisconnectCall, RequestHandleDisconnectCall};
use signal_indication_confirmation::SignalIndicationConfirmationCall;
use slot::{
    AclSendLock, Address, ConnectionManager, DisconnectRequest, LeConnRole, PacketGrant, PoolGrant,
    Woken,
};
use slot_call::{Ended, resolve_in};
use state::DisconnectReason;
use std::alloc::AllocError;
use table::Look;
use unlock_acl_send::UnlockAclSendCall;
use wait_indication_confirmation::WaitIndicationConfirmationCall;
use withdraw_disconnect::WithdrawDisconnectCall;

#[derive(Clone, Copy)]
pub enum Call {
    Connect(NewLink),
    PollAccept(LeConnRole),
    GetConnectedHandle(u16),
    GetConnectionByPeerAddress(Address),
    IncRef(u8),
    DecRef(u8),
    RequestDisconnect(u8, DisconnectReason),
    RequestHandleDisconnect(u16, DisconnectReason),
    PollDisconnecting,
    Confirm(DisconnectRequest),
    Disconnected(u16, u8),
    PostHandleEvent(u16, ConnectionEvent),
    Next(u8),
    PollAcquireAclSendLock(u16),
    UnlockAclSend(AclSendLock),
    PollRequestToSend(AclSendLock, u32),
    GrantEnd(PacketGrant),
    ConfirmSent(u16, u32),
    SetLinkCredits(u32),
    HasLinkCredits(u16, u32),
    ExchangeAttMtu(u16, u16),
    GetAttMtuHandle(u16),
    AcquireIndicationSlot(u8),
    ReleaseIndicationSlot(u8),
    SignalIndicationConfirmation(u16),
    WaitIndicationConfirmation(u8),
    TotalLost,
    WithdrawDisconnect(u8),
    NegotiateAttMtu(u16, u16),
    GetStoredAttMtu(u16),
    PollRequestFromPool(u16, u32),
    PoolConfirmSent(u16, u32),
    PoolGrantEnd(PoolGrant),
}

// The answer of each, as its own call gives it: a Result within a variant for each call, which says whose it is.
pub enum CallAnswer {
    Connect(Result<(), Refusal>),
    PollAccept(Result<usize, Refusal>),
    GetConnectedHandle(Result<usize, Refusal>),
    GetConnectionByPeerAddress(Result<usize, Refusal>),
    IncRef(Result<(), Refusal>),
    DecRef(Result<(), Refusal>),
    RequestDisconnect(Result<(), Refusal>),
    RequestHandleDisconnect(Result<(), Refusal>),
    PollDisconnecting(Result<DisconnectRequest, Refusal>),
    Confirm(Result<Ended, Refusal>),
    Disconnected(Result<(), Refusal>),
    PostHandleEvent(Result<(), Refusal>),
    Next(Result<ConnectionEvent, Refusal>),
    PollAcquireAclSendLock(Result<AclSendLock, Refusal>),
    UnlockAclSend(Result<Ended, Refusal>),
    PollRequestToSend(Result<PacketGrant, Refusal>),
    GrantEnd(Result<Ended, Refusal>),
    ConfirmSent(Result<(), Refusal>),
    SetLinkCredits(Result<(), Refusal>),
    HasLinkCredits(Result<bool, Refusal>),
    ExchangeAttMtu(Result<u16, Refusal>),
    GetAttMtuHandle(Result<u16, Refusal>),
    AcquireIndicationSlot(Result<(), Refusal>),
    ReleaseIndicationSlot(Result<(), Refusal>),
    SignalIndicationConfirmation(Result<(), Refusal>),
    WaitIndicationConfirmation(Result<(), Refusal>),
    TotalLost(Result<u32, Refusal>),
    WithdrawDisconnect(Result<(), Refusal>),
    NegotiateAttMtu(Result<u16, Refusal>),
    GetStoredAttMtu(Result<u16, Refusal>),
    PollRequestFromPool(Result<PoolGrant, Refusal>),
    PoolConfirmSent(Result<(), Refusal>),
    PoolGrantEnd(Result<Ended, Refusal>),
}

// By hand, here and below, as those of `table::Outcome`.
impl Clone for CallAnswer {
    fn clone(&self) -> Result<Self, AllocError> {
        Ok(*self)
    }
}

impl Copy for CallAnswer {}

pub struct CallOutcome {
    pub answer: CallAnswer,
    pub woken: Woken,
    pub table: ConnectionManager,
}

impl Clone for CallOutcome {
    fn clone(&self) -> Result<Self, AllocError> {
        Ok(*self)
    }
}

impl Copy for CallOutcome {}

// The same of a call on a lent table.
pub struct CallLook {
    pub answer: CallAnswer,
    pub woken: Woken,
}

impl Clone for CallLook {
    fn clone(&self) -> Result<Self, AllocError> {
        Ok(*self)
    }
}

impl Copy for CallLook {}

// What a call gave, as any call's.
fn as_any<T, W: FnOnce(Result<T, Refusal>) -> CallAnswer>(given: Look<T>, wrap: W) -> CallLook
    requires { W.IsAlwaysCallable wrap }
    ensures answer { W.post wrap given.answer result.answer }
    ensures woken { result.woken ≡ given.woken }
{
    let Look { answer, woken } = given;
    CallLook {
        answer: wrap(answer),
        woken,
    }
}

// ---- any call

// In place. An arm for each variant, with its own arguments.
pub fn run_call_in(t: &mut ConnectionManager, call: Call) -> CallLook
    ensures outcome { call_look result t.new ≡ run (call_of call) t.old }
    ensures kind { answer_kind result.answer ≡ call_kind call }
{
    match call {
        Call::Connect(new) => as_any(resolve_in(t, &ConnectCall { new }), CallAnswer::Connect),
        Call::PollAccept(role) => as_any(
            resolve_in(t, &PollAcceptAnyCall { role }),
            CallAnswer::PollAccept,
        ),
        Call::GetConnectedHandle(handle) => as_any(
            resolve_in(t, &GetConnectedHandleCall { handle }),
            CallAnswer::GetConnectedHandle,
        ),
        Call::GetConnectionByPeerAddress(peer) => as_any(
            resolve_in(t, &GetConnectionByPeerAddressCall { peer }),
            CallAnswer::GetConnectionByPeerAddress,
        ),
        Call::IncRef(index) => as_any(resolve_in(t, &IncRefCall { index }), CallAnswer::IncRef),
        Call::DecRef(index) => as_any(resolve_in(t, &DecRefCall { index }), CallAnswer::DecRef),
        Call::RequestDisconnect(index, reason) => as_any(
            resolve_in(t, &RequestDisconnectCall { index, reason }),
            CallAnswer::RequestDisconnect,
        ),
        Call::RequestHandleDisconnect(handle, reason) => as_any(
            resolve_in(t, &RequestHandleDisconnectCall { handle, reason }),
            CallAnswer::RequestHandleDisconnect,
        ),
        Call::PollDisconnecting => as_any(
            resolve_in(t, &PollDisconnectingCall),
            CallAnswer::PollDisconnecting,
        ),
        Call::Confirm(ticket) => as_any(
            resolve_in(t, &ConfirmCall { ticket }),
            CallAnswer::Confirm,
        ),
        Call::Disconnected(handle, reason) => as_any(
            resolve_in(t, &DisconnectedCall { handle, reason }),
            CallAnswer::Disconnected,
        ),
        Call::PostHandleEvent(handle, event) => as_any(
            resolve_in(t, &PostHandleEventCall { handle, event }),
            CallAnswer::PostHandleEvent,
        ),
        Call::Next(index) => as_any(resolve_in(t, &NextCall { index }), CallAnswer::Next),
        Call::PollAcquireAclSendLock(handle) => as_any(
            resolve_in(t, &PollAcquireAclSendLockCall { handle }),
            CallAnswer::PollAcquireAclSendLock,
        ),
        Call::UnlockAclSend(lock) => as_any(
            resolve_in(t, &UnlockAclSendCall { lock }),
            CallAnswer::UnlockAclSend,
        ),
        Call::PollRequestToSend(lock, packets) => as_any(
            resolve_in(t, &PollRequestToSendCall { lock, packets }),
            CallAnswer::PollRequestToSend,
        ),
        Call::GrantEnd(grant) => as_any(
            resolve_in(t, &GrantEndCall { grant }),
            CallAnswer::GrantEnd,
        ),
        Call::ConfirmSent(handle, packets) => as_any(
            resolve_in(t, &ConfirmSentCall { handle, packets }),
            CallAnswer::ConfirmSent,
        ),
        Call::SetLinkCredits(credits) => as_any(
            all_credits::set_link_credits_in(t, credits),
            CallAnswer::SetLinkCredits,
        ),
        Call::HasLinkCredits(handle, packets) => as_any(
            resolve_in(t, &HasLinkCreditsCall { handle, packets }),
            CallAnswer::HasLinkCredits,
        ),
        Call::ExchangeAttMtu(handle, mtu) => as_any(
            resolve_in(t, &ExchangeAttMtuCall { handle, mtu }),
            CallAnswer::ExchangeAttMtu,
        ),
        Call::GetAttMtuHandle(handle) => as_any(
            resolve_in(t, &GetAttMtuHandleCall { handle }),
            CallAnswer::GetAttMtuHandle,
        ),
        Call::AcquireIndicationSlot(index) => as_any(
            resolve_in(t, &AcquireIndicationSlotCall { index }),
            CallAnswer::AcquireIndicationSlot,
        ),
        Call::ReleaseIndicationSlot(index) => as_any(
            resolve_in(t, &ReleaseIndicationSlotCall { index }),
            CallAnswer::ReleaseIndicationSlot,
        ),
        Call::SignalIndicationConfirmation(handle) => as_any(
            resolve_in(t, &SignalIndicationConfirmationCall { handle }),
            CallAnswer::SignalIndicationConfirmation,
        ),
        Call::WaitIndicationConfirmation(index) => as_any(
            resolve_in(t, &WaitIndicationConfirmationCall { index }),
            CallAnswer::WaitIndicationConfirmation,
        ),
        Call::TotalLost => as_any(total_lost::total_lost_in(t), CallAnswer::TotalLost),
        Call::WithdrawDisconnect(index) => as_any(
            resolve_in(t, &WithdrawDisconnectCall { index }),
            CallAnswer::WithdrawDisconnect,
        ),
        Call::NegotiateAttMtu(handle, mtu) => as_any(
            resolve_in(t, &NegotiateAttMtuCall { handle, mtu }),
            CallAnswer::NegotiateAttMtu,
        ),
        Call::GetStoredAttMtu(handle) => as_any(
            resolve_in(t, &GetStoredAttMtuCall { handle }),
            CallAnswer::GetStoredAttMtu,
        ),
        Call::PollRequestFromPool(handle, packets) => as_any(
            resolve_in(t, &PollRequestFromPoolCall { handle, packets }),
            CallAnswer::PollRequestFromPool,
        ),
        Call::PoolConfirmSent(handle, packets) => as_any(
            resolve_in(t, &PoolConfirmSentCall { handle, packets }),
            CallAnswer::PoolConfirmSent,
        ),
        Call::PoolGrantEnd(grant) => as_any(
            resolve_in(t, &PoolGrantEndCall { grant }),
            CallAnswer::PoolGrantEnd,
        ),
    }
}

pub fn run_call(t: ConnectionManager, call: Call) -> CallOutcome
    ensures outcome { call_outcome result ≡ run (call_of call) t }
    ensures kind { answer_kind result.answer ≡ call_kind call }
{
    let mut table = t;
    let CallLook { answer, woken } = run_call_in(&mut table, call);
    CallOutcome {
        answer,
        woken,
        table,
    }
}
