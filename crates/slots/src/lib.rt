// No code of its own: entries of one width in one flat list, the oldest first, and what is not in use is
// 0. The queue of messages is such a list, four bytes to an entry, and so are the changes that are kept
// of a board's cells (C-07), three to an entry. specs/Slots.antt has what it is to join such a list and to
// leave it; proofs/ the laws, for any width.

#![tactic(auto)]
