// The theorems of the tidy book, from the definitions of `model` alone: no code of its own.
#![tactic(auto)]
