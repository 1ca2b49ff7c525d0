// The worked examples E1 to E12, spellings of one name, examples for edition two, and the report on E4 and E5: definitions and
// theorems alone. Nothing depends on them.
#![tactic(auto)]
