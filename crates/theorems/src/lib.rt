// Theorems that make the definitions of the calls readable: what each call does, what a refusal leaves, what a call does not depend on, what holds in every
// state reached, that a repeat gets the same bytes, that nothing opens twice, the report of taken places, and the server's rule. Definitions and theorems only; no code.
#![tactic(auto)]
