// What a recording run through the table does: definitions, and the counts that the code has too.
#![tactic(auto)]

// How many records were run, passed over and refused.
#[derive(Clone, Copy)]
pub struct ReplayCounts {
    pub run: usize,
    pub passed_over: usize,
    pub refused: usize,
}
