// What the sheet program prints, for every sheet. No code.
#![tactic(auto)]
