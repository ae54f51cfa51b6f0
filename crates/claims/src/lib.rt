// What holds of the exported calls and of lists of them, demand 3 and the promises of the requests. It has no code of its own.
#![tactic(auto)]
