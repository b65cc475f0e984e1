// Whose turn it is: the waiting slots as the bits of a word.
#![tactic(auto)]

ghost use Rattle.std.specs.Prelude.{◌≡◌, cond, ltb};
ghost use Rattle.turn.specs.Turn.{next_waiting, with_wait};

// The waiting slot that comes next in cyclic order from slot `turn`: 16 where none waits.
pub fn next_waiting(waiting: u16, turn: u8) -> u32
    ensures { result ≡ next_waiting waiting 16 turn }
{
    if turn >= 16 {
        return u16::trailing_zeros(waiting);
    }
    let from = waiting & (0xFFFF << turn);
    if from == 0 {
        return u16::trailing_zeros(waiting);
    }
    u16::trailing_zeros(from)
}

// The word with the bit of a slot set, below 16.
pub fn with_wait(waiting: u16, slot: usize) -> u16
    ensures { result ≡ cond (ltb slot 16) (with_wait slot 1 waiting) waiting }
{
    if slot >= 16 {
        return waiting;
    }
    waiting | (1 << slot)
}

// The word with the bit of a slot cleared.
pub fn without_wait(waiting: u16, slot: usize) -> u16
    ensures { result ≡ cond (ltb slot 16) (with_wait slot 0 waiting) waiting }
{
    if slot >= 16 {
        return waiting;
    }
    waiting & !(1 << slot)
}
