//! Words and bytes as bits, and how far bits are apart: definitions and their laws, which the crates above cite. It has no function.
#![tactic(auto)]
