// No code: the search for a check's multiplier as decoder/src/multiplier.rt makes it, its laws, and that its sums are narrow.
#![tactic(auto)]
