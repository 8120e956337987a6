// No functions: laws of items read one after another.
#![tactic(auto)]
