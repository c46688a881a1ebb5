// What is seen around a site in its own plane, windows flipped, and codes turned: definitions and laws of the search and the repair, and no code.

#![tactic(auto)]
