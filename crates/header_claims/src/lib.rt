// No code: the claims about numbers, headers, opening, the sector map and the map program, stated and proved. Assumes nothing.

#![tactic(auto)]
