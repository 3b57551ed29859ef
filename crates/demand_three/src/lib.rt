// Demand 3, proved from the contract of the service `list` alone: no code of its own.
#![tactic(auto)]
