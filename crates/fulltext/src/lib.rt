// The full text of a case, as lines; what it means when it is read. Definitions and statements.
#![tactic(auto)]
