#![tactic(auto)]

// Definitions and laws of fields, irreducible polynomials and inverses; no code.
