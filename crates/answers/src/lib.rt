//! Definitions only: what an answer of a call tells beside a definition, where some faults may come at any time.
#![tactic(auto)]
