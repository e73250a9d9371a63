// Laws on windows above what the functions of resample_window need: how far a window reaches, how many taps it has,
// what its weights add up to. There is no code here; the laws stand in specs/.
#![tactic(auto)]
