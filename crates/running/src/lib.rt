// No code of its own: what it is to run through a list of items on a board, whatever a board, an item
// and an answer are. specs/Running.antt has one call and the whole list; specs/Pieces.antt has what it
// is to feed a list in pieces, and what the calls must be for that. proofs/Calls.antt has the laws of
// one call, proofs/Cut.antt the theorem that the pieces give what the whole gives, however it was cut.

#![tactic(auto)]
