#![tactic(auto)]

// The definitions of the program, and theorems about them: specs/ and proofs/. No code.
