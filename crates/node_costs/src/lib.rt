//! Definitions: the cost of an assignment, and the costs at which a condition can be met under what is known of the variables. There is
//! no code: proofs about questions to graphs use them.
#![tactic(auto)]
