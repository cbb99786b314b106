// No code: blocks of bytes, and that the mixing of columns is undone. Assumes nothing.

#![tactic(auto)]
