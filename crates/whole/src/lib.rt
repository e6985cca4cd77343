// No code: specs/ has the laws, and the few definitions, that the other crates share.
#![tactic(auto)]
