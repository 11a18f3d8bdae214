// Lists A and B: what is refused of a record before it is written. Every public function answers for every record.
#![tactic(auto)]

pub mod list_a;
pub mod list_b;
