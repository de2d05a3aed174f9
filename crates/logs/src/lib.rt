// The words of a log: what is reported of one line and id, where a log is not refused. The rules over them, and what they promise, are in specs/
// and proofs/; there is no code here.
#![tactic(auto)]

// Of the readings of one line and id: how many there are, the lowest value, the highest, their sum, and the run of equal neighbours with the
// most readings: how many it has, and the ticks from its first to its last.
#[derive(Drop)]
pub struct Report {
    pub readings: u64,
    pub lowest: i64,
    pub highest: i64,
    pub sum: i64,
    pub run: u64,
    pub ticks: u64,
}
