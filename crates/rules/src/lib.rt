// Document 01 as definitions, in specs/. No function runs here.
#![tactic(auto)]
