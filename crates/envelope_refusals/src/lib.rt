// When an element is refused with which number: laws alone, and no code.
#![tactic(auto)]
