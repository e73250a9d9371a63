// What the decoder corrects: theorems about the record that 1,024 block votes decode to. There is no code here. The
// theorems are specs/Theorems.antt, in the words of specs/Demand3.antt; the other files are their proofs.
#![tactic(auto)]
