// The arguments of a line by what they are, each the next of its words.
use crate::fault::{Argument, Fault};
use crate::line::{Bytes, Line};
use connect::NewLink;
use event_queue::{ConnectionEvent, PhyKind};
use slot::{
    AclSendLock, Address, BdAddr, ConnParams, DisconnectRequest, LeConnRole, PacketGrant, PoolGrant,
};
use state::DisconnectReason;

// The first `n` of the array are listed: the two arguments of `accept::poll_accept_listed`.
#[derive(Clone, Copy)]
pub struct ListedPeers {
    pub list: [Address; 16],
    pub n: usize,
}

impl Line<'_> {
    pub fn handle(&mut self) -> Result<u16, Fault> {
        self.short(Argument::Handle)
    }

    pub fn index(&mut self) -> Result<u8, Fault> {
        self.byte(Argument::Index)
    }

    pub fn packets(&mut self) -> Result<u32, Fault> {
        self.word(Argument::Packets)
    }

    pub fn credits(&mut self) -> Result<u32, Fault> {
        self.word(Argument::Credits)
    }

    pub fn mtu(&mut self) -> Result<u16, Fault> {
        self.short(Argument::Mtu)
    }

    pub fn status(&mut self) -> Result<u8, Fault> {
        self.byte(Argument::Status)
    }

    pub fn role(&mut self) -> Result<LeConnRole, Fault> {
        self.of_number(
            Argument::Role,
            &[LeConnRole::Central, LeConnRole::Peripheral],
        )
    }

    fn phy(&mut self, name: Argument) -> Result<PhyKind, Fault> {
        self.of_number(name, &[PhyKind::Le1M, PhyKind::Le2M, PhyKind::LeCoded])
    }

    pub fn reason(&mut self) -> Result<DisconnectReason, Fault> {
        let reasons = [
            DisconnectReason::AuthenticationFailure,
            DisconnectReason::RemoteUserTerminatedConn,
            DisconnectReason::RemoteDeviceTerminatedConnLowResources,
            DisconnectReason::RemoteDeviceTerminatedConnPowerOff,
            DisconnectReason::UnsupportedRemoteFeature,
            DisconnectReason::PairingWithUnitKeyNotSupported,
            DisconnectReason::UnacceptableConnParameters,
        ];
        self.of_number(Argument::Reason, &reasons)
    }

    // A kind and an address, whose most significant byte, the last on the wire, is read first.
    pub fn peer(&mut self) -> Result<Address, Fault> {
        let kind = self.byte(Argument::Kind)?;
        let [f, e, d, c, b, a] = self.address()?;
        let addr = BdAddr(a, b, c, d, e, f);
        Ok(Address { kind, addr })
    }

    // Up to sixteen peers, as many as there are, the last arguments of a line.
    fn last_peers(mut self) -> Result<ListedPeers, Fault> {
        let nobody = Address {
            kind: 0,
            addr: BdAddr(0, 0, 0, 0, 0, 0),
        };
        // The array of `accept::poll_accept_listed`.
        let mut list = [nobody; 16];
        for n in 0..16usize {
            if self.is_read() {
                return Ok(ListedPeers { list, n });
            }
            list[n] = self.peer()?;
        }
        self.end()?;
        Ok(ListedPeers { list, n: 16 })
    }

    // The arguments of `table::new`.
    pub fn new_arguments(mut self) -> Result<(u8, u32, u32), Fault> {
        let slots = self.byte(Argument::Slots)?;
        let mtu = self.word(Argument::PacketMtu)?;
        let packets = self.packets()?;
        self.end()?;
        Ok((slots, mtu, packets))
    }

    pub fn grant_and_sent(mut self) -> Result<(PacketGrant, u32), Fault> {
        let grant = self.grant()?;
        let sent = self.word(Argument::Sent)?;
        self.end()?;
        Ok((grant, sent))
    }

    pub fn role_and_peers(mut self) -> Result<(LeConnRole, ListedPeers), Fault> {
        Ok((self.role()?, self.last_peers()?))
    }

    pub fn role_and_bytes(mut self) -> Result<(LeConnRole, Bytes), Fault> {
        Ok((self.role()?, self.last_bytes()?))
    }

    pub fn handle_and_bytes(mut self) -> Result<(u16, Bytes), Fault> {
        Ok((self.handle()?, self.last_bytes()?))
    }

    fn params(&mut self) -> Result<ConnParams, Fault> {
        Ok(ConnParams {
            conn_interval: self.long(Argument::Interval)?,
            peripheral_latency: self.short(Argument::Latency)?,
            supervision_timeout: self.long(Argument::Timeout)?,
        })
    }

    pub fn link(&mut self) -> Result<NewLink, Fault> {
        Ok(NewLink {
            handle: self.handle()?,
            peer: self.peer()?,
            role: self.role()?,
            params: self.params()?,
        })
    }

    pub fn request(&mut self) -> Result<DisconnectRequest, Fault> {
        Ok(DisconnectRequest {
            index: self.index()? as usize,
            handle: self.handle()?,
            reason: self.reason()?,
            life: self.word(Argument::Life)?,
        })
    }

    pub fn lock(&mut self) -> Result<AclSendLock, Fault> {
        Ok(AclSendLock {
            handle: self.handle()?,
            index: self.index()? as usize,
            life: self.word(Argument::Life)?,
        })
    }

    // A lock that is asked for by its handle alone.
    pub fn lock_of(&mut self) -> Result<AclSendLock, Fault> {
        Ok(AclSendLock {
            handle: self.handle()?,
            index: 0,
            life: 0,
        })
    }

    pub fn grant(&mut self) -> Result<PacketGrant, Fault> {
        Ok(PacketGrant {
            handle: self.handle()?,
            packets: self.packets()?,
            index: self.index()? as usize,
            life: self.word(Argument::Life)?,
        })
    }

    // Its words are those of a link's grant.
    pub fn pool_grant(&mut self) -> Result<PoolGrant, Fault> {
        let PacketGrant {
            handle,
            packets,
            index,
            life,
        } = self.grant()?;
        Ok(PoolGrant {
            handle,
            packets,
            index,
            life,
        })
    }

    // An event's kind, then its fields.
    pub fn event(&mut self) -> Result<ConnectionEvent, Fault> {
        match self.long(Argument::Event)? {
            0 => self.disconnected(),
            1 => self.phy_updated(),
            2 => self.connection_params_updated(),
            3 => self.subrating_params_updated(),
            4 => self.data_length_updated(),
            5 => self.connection_rate_changed(),
            _ => Err(Fault::NoSuchValue(Argument::Event)),
        }
    }

    fn disconnected(&mut self) -> Result<ConnectionEvent, Fault> {
        Ok(ConnectionEvent::Disconnected {
            reason: self.status()?,
        })
    }

    fn phy_updated(&mut self) -> Result<ConnectionEvent, Fault> {
        Ok(ConnectionEvent::PhyUpdated {
            tx_phy: self.phy(Argument::Tx)?,
            rx_phy: self.phy(Argument::Rx)?,
        })
    }

    fn connection_params_updated(&mut self) -> Result<ConnectionEvent, Fault> {
        let params = self.params()?;
        Ok(ConnectionEvent::ConnectionParamsUpdated {
            conn_interval: params.conn_interval,
            peripheral_latency: params.peripheral_latency,
            supervision_timeout: params.supervision_timeout,
        })
    }

    fn subrating_params_updated(&mut self) -> Result<ConnectionEvent, Fault> {
        Ok(ConnectionEvent::SubratingParamsUpdated {
            subrate_factor: self.short(Argument::Factor)?,
            peripheral_latency: self.short(Argument::Latency)?,
            continuation_number: self.short(Argument::Continuation)?,
            supervision_timeout: self.long(Argument::Timeout)?,
        })
    }

    // The one above but for the event's fields and their arguments, which a form for both would have to name again.
    fn data_length_updated(&mut self) -> Result<ConnectionEvent, Fault> {
        Ok(ConnectionEvent::DataLengthUpdated {
            max_tx_octets: self.short(Argument::TxOctets)?,
            max_tx_time: self.short(Argument::TxTime)?,
            max_rx_octets: self.short(Argument::RxOctets)?,
            max_rx_time: self.short(Argument::RxTime)?,
        })
    }

    fn connection_rate_changed(&mut self) -> Result<ConnectionEvent, Fault> {
        Ok(ConnectionEvent::ConnectionRateChanged {
            conn_interval: self.long(Argument::Interval)?,
            subrate_factor: self.short(Argument::Factor)?,
            peripheral_latency: self.short(Argument::Latency)?,
            continuation_number: self.short(Argument::Continuation)?,
            supervision_timeout: self.long(Argument::Timeout)?,
        })
    }
}
