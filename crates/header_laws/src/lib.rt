// No code: what stands in a written header, that it is read back, and that an accepted one written again is the same. Assumes nothing.

#![tactic(auto)]
