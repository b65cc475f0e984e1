// How many records a recording has, and how many bytes they hold.
#![tactic(auto)]

ghost use Rattle.std.specs.Prelude.{◌≡◌};
ghost use Rattle.btsnoop_read.specs.Read.{records_in};
ghost use Rattle.btsnoop_measure.specs.Measure.{measured_of};

// How many records, and how many bytes they hold.
#[derive(Clone, Copy)]
pub struct Measured {
    pub records: usize,
    pub bytes: usize,
}

// `Err`: a record is not whole; those before it.
pub fn measure_all(s: &[u8]) -> Result<Measured, Measured>
    ensures { result ≡ measured_of (records_in s.now) }
{
    let mut m = Measured {
        records: 0,
        bytes: 0,
    };
    let mut at: usize = 16;
    while let Some(head) = btsnoop_read::record_at(s, at) {
        let included = head.included as usize;
        m.records += 1;
        m.bytes += included;
        at = at + 24 + included;
    }
    if at < s.len() {
        return Err(m);
    }
    Ok(m)
}
