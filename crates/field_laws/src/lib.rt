// No code: the inverse in the field of AES, and the S-box and its inverse. Assumes nothing.

#![tactic(auto)]
