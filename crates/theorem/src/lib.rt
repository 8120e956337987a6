// No code: the theorem on any two accepted timestamps, and the law of months where a day is wanted.
#![tactic(auto)]
