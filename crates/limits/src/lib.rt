// The smallest and the largest value of each field of a message, for readers and writers alike.
#![tactic(auto)]

ghost use Rattle.std.specs.Prelude.{◌≡◌};
ghost use Rattle.limits.specs.Limits.{limits_of, within as within_of};

#[derive(Clone, Copy)]
pub enum Field {
    Handle,
    Role,
    AddrKind,
    ConnInterval,
    PeripheralLatency,
    SupervisionTimeout,
    ClockAccuracy,
    // A handle whatever the status: 12 bits.
    RawHandle,
    // The pairs of one Number Of Completed Packets.
    Pairs,
    // The bytes of a Handle Value Indication's value.
    ValueLen,
}

#[derive(Clone, Copy)]
pub struct Limits {
    pub low: u16,
    pub high: u16,
}

impl Field {
    fn limits(self) -> Limits
        ensures { result ≡ limits_of self }
    {
        let (low, high) = match self {
            Field::Handle => (0, 0xEFF),
            Field::Role => (0, 1),
            Field::AddrKind => (0, 1),
            Field::ConnInterval => (6, 3200),
            Field::PeripheralLatency => (0, 499),
            Field::SupervisionTimeout => (10, 3200),
            Field::ClockAccuracy => (0, 7),
            Field::RawHandle => (0, 0xFFF),
            Field::Pairs => (0, 63),
            Field::ValueLen => (0, 512),
        };
        Limits { low, high }
    }
}

// Whether a field may have this value.
#[tactic(auto, using(crate::proofs::Laws::too_low, crate::proofs::Laws::high_enough))]
pub fn within(field: Field, value: usize) -> bool
    ensures { result ≡ within_of field value }
{
    let limits = field.limits();
    limits.low as usize <= value && value <= limits.high as usize
}
