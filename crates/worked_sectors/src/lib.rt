// No code: the worked cases of opening by the size of a disk's sectors, computed. Assumes nothing.

#![tactic(auto)]
