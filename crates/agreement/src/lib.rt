// Theorems over every list of a bank's steps: demand 3 of document 01, and of document 02 the limits of packets and of steps, returns, journals and losses.
// Definitions and theorems in specs/ and proofs/, no code.
#![tactic(auto)]
