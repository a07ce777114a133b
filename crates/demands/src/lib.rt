// No code of its own: this crate is the page a doubter opens first. specs/Demands.antt has the three
// demands, each a record whose fields are its sentences; proofs/Demands.antt says that all three hold.
// Of the entries nothing is known here but their promises, which the crate `entries` shows to be what
// the entries give.
//
// specs/ has besides what the demands speak of, the table of examples and the table of wrong
// outcomes; proofs/ has the theorems, each file with its claim in plain words: Demand1, Demand2,
// Demand3, Firmware (the firmware's entry), Frames (which command can change what), Examples (all rows
// hold), Wrong (all rows are rejected), Imposters, OnTheWire (what the host encodes is heard and means
// the same), BankRead (a bank's reply is read back). The other files there are steps of these.
#![tactic(auto)]
