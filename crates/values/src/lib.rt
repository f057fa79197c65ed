// Document 01's values, held against the definitions: the tables stand under specs/, their claims under proofs/.
#![tactic(auto)]
