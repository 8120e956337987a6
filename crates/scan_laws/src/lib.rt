// No functions: laws of the bytes of scans and of files.
#![tactic(auto)]
