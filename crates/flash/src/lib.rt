// No code of its own: C-13's theorems. specs/FixedBank.antt has the request's sentences, a record's
// fields; specs/OldBank.antt what it was before, bank 254 in the store; proofs/FixedBank.antt says that
// all of them hold.
#![tactic(auto)]
