#![tactic(auto)]

// No code: specs/ holds readers at places, proofs/ the laws about them.
