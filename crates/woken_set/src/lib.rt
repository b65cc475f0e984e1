// The waiters that several calls wake, as a set.
#![tactic(auto)]

ghost use Rattle.std.specs.Prelude.{◌≡◌};
ghost use Rattle.woken_set.specs.WokenSet.{either, nobody, added, added_at, joined};

use slot::Woken;

// The four waiters of a link.
#[derive(Clone, Copy)]
pub struct LinkWoken {
    pub link_credit: bool,
    pub acl_send_lock: bool,
    pub indication_slot: bool,
    pub indication_cfm: bool,
}

// The three waiters of the table, and those of each slot: a set, in which each flag is a member and stands beside no value.
#[derive(Clone, Copy)]
pub struct WokenSet {
    pub central: bool,
    pub peripheral: bool,
    pub disconnect: bool,
    pub links: [LinkWoken; 16],
}

// None of them, and all of them.
const NONE: LinkWoken = LinkWoken {
    link_credit: false,
    acl_send_lock: false,
    indication_slot: false,
    indication_cfm: false,
};

const ALL: LinkWoken = LinkWoken {
    link_credit: true,
    acl_send_lock: true,
    indication_slot: true,
    indication_cfm: true,
};

// One of them.
const LINK_CREDIT: LinkWoken = LinkWoken {
    link_credit: true,
    ..NONE
};

const ACL_SEND_LOCK: LinkWoken = LinkWoken {
    acl_send_lock: true,
    ..NONE
};

const INDICATION_SLOT: LinkWoken = LinkWoken {
    indication_slot: true,
    ..NONE
};

const INDICATION_CFM: LinkWoken = LinkWoken {
    indication_cfm: true,
    ..NONE
};

impl LinkWoken {
    // With those of another: field by field, which no derive writes.
    fn or(self, more: LinkWoken) -> LinkWoken
        ensures { result ≡ either self more }
    {
        LinkWoken {
            link_credit: self.link_credit || more.link_credit,
            acl_send_lock: self.acl_send_lock || more.acl_send_lock,
            indication_slot: self.indication_slot || more.indication_slot,
            indication_cfm: self.indication_cfm || more.indication_cfm,
        }
    }
}

impl WokenSet {
    // Nobody.
    pub fn new() -> Self
        ensures { result ≡ nobody }
    {
        WokenSet {
            central: false,
            peripheral: false,
            disconnect: false,
            links: [NONE; 16],
        }
    }

    // With these waiters of the link at an index; an index past the table adds nobody.
    fn add_at(self, i: usize, more: LinkWoken) -> Self
        ensures { result ≡ added_at self i more }
    {
        let mut set = self;
        if i < 16 {
            set.links[i] = set.links[i].or(more);
        }
        set
    }

    // With the waiters that a call wakes: an arm for each variant of a closed enum.
    pub fn add(self, w: Woken) -> Self
        ensures { result ≡ added self w }
    {
        match w {
            Woken::Nobody => self,
            Woken::Central => WokenSet {
                central: true,
                ..self
            },
            Woken::Peripheral => WokenSet {
                peripheral: true,
                ..self
            },
            Woken::Disconnect => WokenSet {
                disconnect: true,
                ..self
            },
            Woken::LinkCredit(i) => self.add_at(i, LINK_CREDIT),
            Woken::AclSendLock(i) => self.add_at(i, ACL_SEND_LOCK),
            Woken::IndicationSlot(i) => self.add_at(i, INDICATION_SLOT),
            Woken::IndicationCfm(i) => self.add_at(i, INDICATION_CFM),
            Woken::Link(i) => self.add_at(i, ALL),
        }
    }

    // With all of another set.
    pub fn join(self, more: WokenSet) -> Self
        ensures { result ≡ joined self more }
    {
        let mut set = self;
        set.central |= more.central;
        set.peripheral |= more.peripheral;
        set.disconnect |= more.disconnect;
        for i in 0..16 {
            set = set.add_at(i, more.links[i]);
        }
        set
    }
}
