// The theorems of the renaming, from the definitions of `model` alone: no code of its own.
#![tactic(auto)]
