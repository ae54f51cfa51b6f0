// Facts of tests and lists that the proofs of every crate cite. Nothing here knows the room unit.
#![tactic(auto)]
