// Whole numbers: laws only, in specs/. No function runs here.
#![tactic(auto)]
