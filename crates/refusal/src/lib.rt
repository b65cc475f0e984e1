// The refusals of a call, and their numbers.
#![tactic(auto)]

ghost use Rattle.std.specs.Prelude.{◌≡◌};
ghost use Rattle.refusal.specs.Number.{number_of};

#[derive(Clone, Copy, PartialEq, Eq)]
pub enum Refusal {
    Index,
    NotFound,
    Disconnected,
    OutOfMemory,
    Pending,
    Refs,
    Credits,
    // The table is not well formed.
    Setup,
    // Bytes or values that are no message.
    Packet,
    // A slice that is too short.
    Space,
    Header,
    Record,
    // More packets than the pool has in all.
    Ask,
    // More packets than the link holds.
    Held,
    // The free slot is in its last life.
    Life,
    // A request on a slot without references.
    Unreferenced,
    Columns,
    Pairs,
    Values,
}

// Document 01's numbers, of which some are left out: the variants' own positions are not them.
impl From<Refusal> for u8 {
    fn from(refusal: Refusal) -> u8
        ensures { result ≡ number_of refusal }
    {
        match refusal {
            Refusal::Index => 1,
            Refusal::NotFound => 2,
            Refusal::Disconnected => 3,
            Refusal::OutOfMemory => 4,
            Refusal::Pending => 5,
            Refusal::Refs => 6,
            Refusal::Credits => 7,
            Refusal::Setup => 8,
            Refusal::Packet => 9,
            Refusal::Space => 10,
            Refusal::Header => 11,
            Refusal::Record => 12,
            Refusal::Ask => 13,
            Refusal::Held => 14,
            Refusal::Life => 15,
            Refusal::Unreferenced => 16,
            Refusal::Columns => 21,
            Refusal::Pairs => 22,
            Refusal::Values => 23,
        }
    }
}
