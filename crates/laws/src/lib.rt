// Definitions and laws on numbers and lists; no camera, and no code.

#![tactic(auto)]
