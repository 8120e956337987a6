// No code: numbers in places of any base, tables, and their laws.
#![tactic(auto)]
