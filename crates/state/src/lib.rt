// What a slot's link is doing, named as in `connection_manager.rs`, and the questions asked of it.
#![tactic(auto)]

ghost use Rattle.std.specs.Prelude.{◌≡◌};
ghost use Rattle.state.specs.State.{reason_value, is_live, is_connected, is_open, is_requesting, is_connecting};

#[derive(Clone, Copy)]
pub enum DisconnectReason {
    AuthenticationFailure,
    RemoteUserTerminatedConn,
    RemoteDeviceTerminatedConnLowResources,
    RemoteDeviceTerminatedConnPowerOff,
    UnsupportedRemoteFeature,
    PairingWithUnitKeyNotSupported,
    UnacceptableConnParameters,
}

impl From<DisconnectReason> for u8 {
    fn from(reason: DisconnectReason) -> u8
        ensures { result ≡ reason_value reason }
    {
        match reason {
            DisconnectReason::AuthenticationFailure => 0x05,
            DisconnectReason::RemoteUserTerminatedConn => 0x13,
            DisconnectReason::RemoteDeviceTerminatedConnLowResources => 0x14,
            DisconnectReason::RemoteDeviceTerminatedConnPowerOff => 0x15,
            DisconnectReason::UnsupportedRemoteFeature => 0x1A,
            DisconnectReason::PairingWithUnitKeyNotSupported => 0x29,
            DisconnectReason::UnacceptableConnParameters => 0x3B,
        }
    }
}

#[derive(Clone, Copy)]
pub enum ConnectionState {
    Disconnected,
    DisconnectRequest(DisconnectReason),
    Disconnecting(DisconnectReason),
    Connecting,
    Connected,
}

impl ConnectionState {
    pub fn is_live(self) -> bool
        ensures { result ≡ is_live self }
    {
        matches!(
            self,
            ConnectionState::Connecting | ConnectionState::Connected
        )
    }

    pub fn is_connected(self) -> bool
        ensures { result ≡ is_connected self }
    {
        matches!(self, ConnectionState::Connected)
    }

    pub fn is_open(self) -> bool
        ensures { result ≡ is_open self }
    {
        !matches!(self, ConnectionState::Disconnected)
    }

    pub fn is_requesting(self) -> bool
        ensures { result ≡ is_requesting self }
    {
        matches!(self, ConnectionState::DisconnectRequest(_))
    }

    pub fn is_connecting(self) -> bool
        ensures { result ≡ is_connecting self }
    {
        matches!(self, ConnectionState::Connecting)
    }
}
