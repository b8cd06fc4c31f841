// The run of a file of records by any record step, and its laws. No function.
#![tactic(auto)]
