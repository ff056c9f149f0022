// The comparison of a column's steps with the report's Figure 3.2: definitions and theorems in specs/ and proofs/, no code.
#![tactic(auto)]
