// Document 01's marked examples: they are theorems about the definitions (proofs/Marked.antt), and no
// code stands here.
#![tactic(auto)]
