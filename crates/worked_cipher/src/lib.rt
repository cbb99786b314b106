// No code: the worked cases of the cipher, computed. Assumes nothing.

#![tactic(auto)]
