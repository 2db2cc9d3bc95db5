// What the theorems about runs say of a host's calls. There is no code here: specs/ says what a session is, and proofs/ has the theorems.
#![tactic(auto)]
