// The rules of cells (document 01, "Cells and operations"): definitions of the check and of a run, and what is shown of them. No code.

#![tactic(auto)]
