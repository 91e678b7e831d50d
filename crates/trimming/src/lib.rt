// Cards without idle cells (document 02, change 5). There is no code here: what trimming a card is stands in specs/Trim.antt, what is
// promised of it in specs/Promise.antt, and the proofs in proofs/.
#![tactic(auto)]
