#![tactic(auto)]

// Definitions and laws on lists of words; no code.
