// Cases from filed texts: the case that a text spells.
#![tactic(auto)]
