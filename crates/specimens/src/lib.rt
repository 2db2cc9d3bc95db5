// Document 01's specimens, and values on either side of each limit. There is no code here: specs/ lists them, and proofs/ computes them.
#![tactic(auto)]
