// Theorems about runs of the agent's calls. There is no code here: specs/ says what a run and a round are, and proofs/ has the theorems.
#![tactic(auto)]
