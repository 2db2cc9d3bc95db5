// Lists, and words as rows. There is no code here: specs/ has the definitions that the table's contracts cite, proofs/ their laws, for
// rows of any width and tables of any size.
#![tactic(auto)]
