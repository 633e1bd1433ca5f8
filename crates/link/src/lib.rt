// Demand 3: the runs of one router, its nodes and one server over a lossy link. Definitions and theorems only; no code.
#![tactic(auto)]
