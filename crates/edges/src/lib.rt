// Document 01's worked examples, over the definitions; no code.

#![tactic(auto)]
