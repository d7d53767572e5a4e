// Document 01's examples, P1 to P12 and others, the misreadings that they catch, and examples of document 02's requests: see
// specs/ and proofs/. No code.
#![tactic(auto)]
