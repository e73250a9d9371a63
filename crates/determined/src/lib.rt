// That every promise determines its outcome: for each public function of the library crates, two outcomes that its
// contract allows for the same arguments are equal, the result and all lent memory. There is no code here; the
// theorems stand in specs/, a file for each crate, over the contracts that the code is held to.
#![tactic(auto)]
