#![tactic(auto)]

// Definitions and laws only.
