// No code: that two lists with every height 0 give the answers of the plane.
#![tactic(auto)]
