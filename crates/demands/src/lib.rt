// Theorems about the real contracts of the functions that are open to callers; nothing here runs.
#![tactic(auto)]
