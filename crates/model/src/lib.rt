// No code: the reference model of reads and writes over any rules, and what holds of every run that keeps them. Assumes nothing.

#![tactic(auto)]
