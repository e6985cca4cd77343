// Theorems alone: see specs/.
#![tactic(auto)]
