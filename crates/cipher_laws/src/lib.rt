// No code: that deciphering undoes enciphering, and the other way round. Assumes nothing.

#![tactic(auto)]
