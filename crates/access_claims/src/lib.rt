// No code: the claims about views, reads, writes, plaintext and the cipher, stated and proved. Assumes nothing.

#![tactic(auto)]
