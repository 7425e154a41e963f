// The statements of the demands, as theorems over the definitions.
#![tactic(auto)]
