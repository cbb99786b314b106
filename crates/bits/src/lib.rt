// Bits and bytes of numbers: definitions and laws only, for CRC-32 and for ciphers.

#![tactic(auto)]
