// The paper's cases: a table that one theorem covers by computation. It has no code of its own.
#![tactic(auto)]
