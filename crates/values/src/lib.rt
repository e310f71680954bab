// The values of document 01, 'Values on both sides', that are marked P. No function is here: they are values of the definitions.

#![tactic(auto)]
