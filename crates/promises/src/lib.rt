#![tactic(auto)]

// No code: specs/ states what holds of the code of the other crates, proofs/ proves it from their contracts.
