// The two stores of x and y are the pairs of the form before them, taken apart. A theorem; there is no code.
#![tactic(auto)]
