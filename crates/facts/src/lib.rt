// Theorems on admission, questions and pieces, for whoever relies on them. No code.
#![tactic(auto)]
