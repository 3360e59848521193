// Document 01's edge cases that are proved: specs/Edges.antt has them as one table with one theorem.
#![tactic(auto)]
