// The refinement between the code and the rules: what a call does on the device's state and the table's words, as definitions for
// every state, since a public function asks nothing of its caller, and the laws that on sound state and table this is what the rules
// say. Order of reading: specs/Flat (attachments, records, regions, logs, the handlers of requests); Requesting, Translating,
// Resetting and Fetching (the calls); Setting (what set-up takes and gives back). In proofs/ the laws are in Stepped, Answered,
// Resetting and Fetching; the other files serve them. Here is the type of what set-up gives back, and no function.
#![tactic(auto)]

use rules::{Answer, State};

// What set-up gives back: its answer, and the state that it makes.
#[derive(Clone, Copy)]
pub struct CallResult {
    pub answer: Answer,
    pub state: State,
}
