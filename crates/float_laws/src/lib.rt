// Laws on floats above what the functions of float need: bounds on sizes, values that are whole numbers of a unit,
// errors of sums. There is no code here; the laws stand in specs/, and those that rest on the factor in a vote in
// proofs/.
#![tactic(auto)]
