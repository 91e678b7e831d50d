// The card that solve wrote: held by a runner, as a certificate, and trimmed. There is no code here: what is promised is stated in
// specs/Control.antt and proved in proofs/Control.antt.
#![tactic(auto)]
