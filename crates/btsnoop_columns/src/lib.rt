// Recordings by column: the arrangement and both directions, as definitions; their round trips.
#![tactic(auto)]
