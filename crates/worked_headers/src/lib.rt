// No code: the worked cases of opening, computed. Assumes nothing.

#![tactic(auto)]
