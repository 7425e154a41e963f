// Laws of the machine's definitions: the trial sums, and that a fit state stays fit. The theorems stand in proofs/.
#![tactic(auto)]
